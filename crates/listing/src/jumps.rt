// The second pass over a text that can be read: its jumps.
ghost use Rattle.std.specs.Prelude.{◌≡◌};
ghost use Rattle.paper.specs.Listing.{astray_lines};
ghost use Rattle.listing.specs.Again.{lines_in, CanRead, MarksAre, astray_is};

use crate::lines::candidate;
use crate::write::lines_length;
use kernel::jumps::jump_lands;
use words::limits::{DICTIONARY_BYTES, PLACES};

// The byte at which the lines begin of the first branch with a distance that leads to no mark. The marks are those of the text's instructions and of the end.
// It goes over the text as `lay::write_kernel` does. An iterator over a text would be a struct with its law, its measure and its `next`, as `kernel::instructions` has them: longer than the two loops.
pub(crate) fn first_astray(
    dictionary: &[u8; DICTIONARY_BYTES],
    text: &[u8],
    marks: &[u8; PLACES],
) -> Option<u64>
    requires { CanRead dictionary.now text.now × MarksAre (lines_in dictionary.now text.now) marks.now }
    ensures { astray_is result ≡ astray_lines (lines_in dictionary.now text.now) (lines_in dictionary.now text.now) 0 }
{
    let mut from: usize = 0;
    let mut place: u64 = 0;
    // A step is as long as an instruction's lines, so no `for` counts it.
    while from < text.len() {
        let i = candidate(text, place, from);
        if !jump_lands(marks, i) {
            return Some(from as u64);
        }
        from += lines_length(i);
        place += i.size;
    }
    None
}
