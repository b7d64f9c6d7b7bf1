// A kernel is accepted or refused: 1, 2, 17 and 3 to 11, then 12.
ghost use Rattle.std.specs.Prelude.{false, ◌≡◌};
ghost use Rattle.std.specs.Option.{MatchOption};
ghost use Rattle.paper.specs.Calls.{sized, accepted};
ghost use Rattle.kernel.specs.Judging.{forms_is};
ghost use Rattle.kernel.specs.Marks.{Says};
ghost use Rattle.kernel.specs.Accepting.{RightSizes};

use crate::forms::Forms;
use crate::instructions::Instructions;
use crate::jumps::first_astray;
use crate::walk::walk;
use short::dictionary::in_range;
use table::regions::Regions;
use words::answer::Refused;
use words::limits::{DICTIONARY_BYTES, KERNEL_BYTES, PLACES};
use words::refusal::Refusal;

// 1: the dictionary has its bytes, the kernel not too many. Then the dictionary's type says so.
pub fn sized<'a>(dictionary: &'a [u8], kernel: &[u8]) -> Option<&'a [u8; DICTIONARY_BYTES]>
    ensures { MatchOption result (sized dictionary.now kernel.now ≡ false) (λ d. (d.now ≡ dictionary.now) × RightSizes d.now kernel.now) }
{
    if kernel.len() > KERNEL_BYTES {
        return None;
    }
    dictionary.as_array()
}

// What is said of a kernel as a whole: how many instructions it has, or its refusal. In the marks that are lent, whatever they hold, an accepted kernel's
// places are then marked, its end among them, and no other; what a refused kernel leaves in them is working storage.
pub fn accept(
    forms: Forms,
    dictionary: &[u8],
    kernel: &[u8],
    marks: &mut [u8; PLACES],
) -> Result<u64, Refused>
    ensures { Says (accepted (forms_is forms) dictionary.now kernel.now) result marks.new }
{
    let Some(dictionary) = sized(dictionary, kernel) else {
        return Err(Refusal::WrongSize.into());
    };
    if !in_range(dictionary) {
        return Err(Refusal::WideDictionary.into());
    }
    let regions = Regions::new();
    let count = walk(&regions, forms, dictionary, kernel, marks)?;
    match first_astray(Instructions::of(dictionary, kernel), marks) {
        None => Ok(count),
        Some(offset) => Err(Refusal::StrayJump.at(offset)),
    }
}
