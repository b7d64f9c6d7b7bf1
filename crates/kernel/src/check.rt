// The check: is a kernel accepted, and how many instructions has it.
ghost use Rattle.std.specs.Prelude.{◌≡◌};
ghost use Rattle.paper.specs.Calls.{check_call};
ghost use Rattle.words.specs.Answer.{answer_is};

use crate::accept::accept;
use crate::forms::Forms;
use words::answer::{Answer, accepted};
use words::limits::PLACES;

// The verdict on a kernel of long and short words; the count is its instructions.
pub fn check(dictionary: &[u8], kernel: &[u8]) -> Answer
    ensures { answer_is result ≡ check_call dictionary.now kernel.now }
{
    let mut marks = [0u8; PLACES];
    accepted(accept(Forms::LongAndShort, dictionary, kernel, &mut marks)?)
}
