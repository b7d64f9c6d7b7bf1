// The calls step and run over lent bytes. A refusal changes nothing.
ghost use Rattle.std.specs.Prelude.{◌≡◌, true, List, ℕ, ◌≤◌};
ghost use Rattle.paper.specs.Limits.{budget_limit};
ghost use Rattle.paper.specs.Calls.{sized, step_call, run_call};
ghost use Rattle.words.specs.Answer.{Left};
ghost use Rattle.run.specs.Answers.{Admits, call_of, budget_of};

use crate::accepted::Accepted;
use crate::call::Call;
use crate::lawful::made_lawful;
use crate::legal::is_legal;
use kernel::accept::{accept, sized};
use kernel::forms::Forms;
use words::answer::{Answer, Refused};
use words::limits::{BUDGET_LIMIT, DICTIONARY_BYTES, PLACES, REGISTER_BYTES, STATE_LENGTH};
use words::refusal::Refusal;

// The kernel's own refusals, then 15. Of a kernel that is fine, the marks that are lent then mark the places at which its instructions start, and its end.
fn admit(
    dictionary: &[u8; DICTIONARY_BYTES],
    kernel: &[u8],
    state: &[u8; STATE_LENGTH],
    marks: &mut [u8; PLACES],
) -> Result<(), Refused>
    requires { sized dictionary.now kernel.now ≡ true }
    ensures { (registers : List ℕ) → Admits dictionary.now kernel.now registers state.now marks.new result }
{
    accept(Forms::LongAndShort, dictionary, kernel, marks)?;
    if !is_legal(marks, state) {
        return Err(Refusal::BadState.into());
    }
    Ok(())
}

// A step or a run, by the kernel's refusals and 15. Its sizes are right, and its budget is in its limit.
fn called(
    call: Call,
    dictionary: &[u8; DICTIONARY_BYTES],
    kernel: &[u8],
    registers: &mut [u8; REGISTER_BYTES],
    state: &mut [u8; STATE_LENGTH],
) -> Answer
    requires { (sized dictionary.now kernel.now ≡ true) × (budget_of call ≤ budget_limit) }
    ensures { Left (call_of call dictionary.now kernel.now registers.old state.old) result registers.new state.new }
{
    let mut marks = [0; PLACES];
    admit(dictionary, kernel, state, &mut marks)?;
    let accepted = Accepted {
        dictionary,
        kernel,
        marks: &marks,
    };
    made_lawful(call, accepted, registers, state)
}

// One step from the lent state; 20 at the end, 22 at a broken address.
pub fn step(dictionary: &[u8], kernel: &[u8], registers: &mut [u8], state: &mut [u8]) -> Answer
    ensures { Left (step_call dictionary.now kernel.now registers.old state.old) result registers.new state.new }
{
    let Some(dictionary) = sized(dictionary, kernel) else {
        return Err(Refusal::WrongSize.into());
    };
    let Some(registers) = registers.as_mut_array() else {
        return Err(Refusal::WrongSize.into());
    };
    let Some(state) = state.as_mut_array() else {
        return Err(Refusal::WrongSize.into());
    };
    called(Call::Step, dictionary, kernel, registers, state)
}

// Steps from the lent state until the end, 20, a broken address, 22, or until the budget is spent, 21. 16 for a budget over the limit.
pub fn run(
    dictionary: &[u8],
    kernel: &[u8],
    budget: u64,
    registers: &mut [u8],
    state: &mut [u8],
) -> Answer
    ensures { Left (run_call dictionary.now kernel.now budget registers.old state.old) result registers.new state.new }
{
    let Some(dictionary) = sized(dictionary, kernel) else {
        return Err(Refusal::WrongSize.into());
    };
    let Some(registers) = registers.as_mut_array() else {
        return Err(Refusal::WrongSize.into());
    };
    let Some(state) = state.as_mut_array() else {
        return Err(Refusal::WrongSize.into());
    };
    if BUDGET_LIMIT < budget {
        return Err(Refusal::BudgetOver.into());
    }
    called(Call::Run(budget), dictionary, kernel, registers, state)
}
