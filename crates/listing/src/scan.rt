// The first pass over a text: its instructions, one after the other. Jumps come after it.
ghost use Rattle.std.specs.Prelude.{◌≡◌};
ghost use Rattle.paper.specs.Limits.{instruction_limit};
ghost use Rattle.paper.specs.Dictionary.{dictionary_of};
ghost use Rattle.paper.specs.Listing.{lines_from};
ghost use Rattle.listing.specs.Scanning.{Scans};

use crate::lines::lines_at;
use table::regions::Regions;
use words::answer::Refused;
use words::limits::{DICTIONARY_BYTES, INSTRUCTION_LIMIT, PLACES};
use words::refusal::Refusal;

// The text's instructions, read one after the other: how many places its kernel has, or the refusal of the first faulty lines, by the byte at which they begin. In the marks that are lent it sets a mark, 1, for each place at which one starts and for the end, and
// none elsewhere; the marks that a faulty text leaves are working storage. The table of what source fields allow is lent.
pub(crate) fn scan(
    regions: &Regions,
    dictionary: &[u8; DICTIONARY_BYTES],
    text: &[u8],
    marks: &mut [u8; PLACES],
) -> Result<u64, Refused>
    ensures { Scans (lines_from (dictionary_of dictionary.now) text.now instruction_limit 0 0) result marks.new }
{
    *marks = [0u8; PLACES];
    let mut from: usize = 0;
    let mut place: u64 = 0;
    let mut count: u64 = 0;
    // A step is as long as an instruction's lines, which are known once they have been read: so no `for` counts it.
    while from < text.len() {
        if count == INSTRUCTION_LIMIT {
            return Err(Refusal::NoListing.at(from as u64));
        }
        match lines_at(regions, dictionary, text, place, from) {
            None => return Err(Refusal::NoListing.at(from as u64)),
            Some((instruction, next)) => {
                marks[place as usize] = 1;
                count += 1;
                place += instruction.size;
                from = next;
            }
        }
    }
    marks[place as usize] = 1;
    Ok(place)
}
