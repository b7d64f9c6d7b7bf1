// The first pass over a kernel: 17 and 3 to 11, instruction by instruction.
ghost use Rattle.std.specs.Prelude.{◌≡◌, ◌≤◌, length};
ghost use Rattle.paper.specs.Limits.{kernel_bytes};
ghost use Rattle.paper.specs.Dictionary.{dictionary_of};
ghost use Rattle.paper.specs.Kernel.{parse};
ghost use Rattle.kernel.specs.Judging.{forms_is};
ghost use Rattle.kernel.specs.Marks.{Says};

use crate::forms::Forms;
use crate::instruction::judge_at;
use table::regions::Regions;
use words::answer::Refused;
use words::limits::{DICTIONARY_BYTES, INSTRUCTION_LIMIT, PLACES};
use words::refusal::Refusal;

// The kernel's instructions, judged one after the other: how many there are, or the refusal of the first that is refused. In the marks that are
// lent it sets a mark, 1, for each place at which one starts and for the end, and none elsewhere. The marks that a refused kernel leaves are working storage.
// The loop is no `for`: how far it goes is known only once the instruction at its place is judged, and `Instructions` goes over those that have passed.
// Marks are bytes in fixed memory, since `accept` is public and is lent them so.
// The table of what source fields allow is lent, for the judge to look in.
pub(crate) fn walk(
    regions: &Regions,
    forms: Forms,
    dictionary: &[u8; DICTIONARY_BYTES],
    kernel: &[u8],
    marks: &mut [u8; PLACES],
) -> Result<u64, Refused>
    requires { length kernel.now ≤ kernel_bytes }
    ensures { Says (parse (forms_is forms) (dictionary_of dictionary.now) kernel.now) result marks.new }
{
    *marks = [0u8; PLACES];
    let mut from: usize = 0;
    let mut count: u64 = 0;
    while from < kernel.len() {
        if count == INSTRUCTION_LIMIT {
            return Err(Refusal::TooMany.at(from as u64));
        }
        match judge_at(regions, forms, dictionary, kernel, from) {
            Err(refusal) => return Err(refusal.at(from as u64)),
            Ok(f) => {
                marks[from / 8] = 1;
                count += 1;
                from += 8 * (f.size as usize);
            }
        }
    }
    marks[from / 8] = 1;
    Ok(count)
}
