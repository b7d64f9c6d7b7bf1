// Do all jumps of a kernel go forward: every target lies after its branch.
ghost use Rattle.std.specs.Prelude.{◌≡◌};
ghost use Rattle.paper.specs.Jump.{targets_of};
ghost use Rattle.paper.specs.Forward.{lie_after, forward};
ghost use Rattle.paper.specs.Calls.{forward_call};
ghost use Rattle.words.specs.Answer.{answer_is};
ghost use Rattle.kernel.specs.Instructions.{instr_is, instrs_left};

use crate::accept::accept;
use crate::forms::Forms;
use crate::instructions::{Instruction, Instructions};
use words::answer::{Answer, accepted};
use words::limits::PLACES;
use words::refusal::Refusal;

// Each distance of the instruction leads to a place after its own.
fn leads_forward(i: Instruction) -> bool
    ensures { result ≡ lie_after i.place (targets_of (instr_is i)) }
{
    i.each_lands(|place| i.place < place)
}

// Every distance of every instruction leads to a place after the instruction's own.
fn all_forward(all: Instructions) -> bool
    ensures { result ≡ forward (instrs_left all.entry) }
{
    for i in all {
        if !leads_forward(i) {
            return false;
        }
    }
    true
}

// What check refuses; of an accepted kernel the count is 1 if every jump goes forward, and 0 if one does not.
pub fn forward(dictionary: &[u8], kernel: &[u8]) -> Answer
    ensures { answer_is result ≡ forward_call dictionary.now kernel.now }
{
    let Some(dictionary) = dictionary.as_array() else {
        return Err(Refusal::WrongSize.into());
    };
    let mut marks = [0u8; PLACES];
    accept(Forms::LongAndShort, dictionary, kernel, &mut marks)?;
    let all = Instructions::of(dictionary, kernel);
    accepted(u64::from(all_forward(all)))
}
