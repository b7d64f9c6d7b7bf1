// A step and a run of an accepted kernel from a legal state, over working storage as long as the kernel asks.
ghost use Rattle.std.specs.Prelude.{◌*◌, ◌<◌, ◌≤◌, length};
ghost use Rattle.paper.specs.Limits.{budget_limit};
ghost use Rattle.paper.specs.Calls.{step_call, run_call};
ghost use Rattle.words.specs.Answer.{Left};
ghost use Rattle.run.specs.Answers.{Allowed, call_of, budget_of};
ghost use Rattle.run.specs.Opening.{Blank};

use crate::accepted::Accepted;
use crate::call::Call;
use crate::running::run_on;
use machine::ends::{enter, leave};
use words::answer::{Answer, Refused, Told, Verdict};
use words::limits::{ADDRESSES_AT, PLACES, REGISTER_BYTES, STATE_LENGTH};
use words::refusal::Refusal;

// As many places as a tiny and a small kernel have at most, its end among them, and the numbers of a table of three for each place.
const TINY: usize = 64;

const TINY_NUMBERS: usize = 3 * TINY;

const SMALL: usize = 512;

const SMALL_NUMBERS: usize = 3 * SMALL;

const NUMBERS: usize = 3 * PLACES;

// A table of three numbers for each place is lent, and the masks by place are lent blank. The two are handed on apart, as `machine::posts` has its masks, and for its reason.

// One step: a run of one, for which the table has the row of its place. 20 at the end and 22 at a broken address, where nothing changes.
fn step_over(
    accepted: Accepted,
    registers: &mut [u8; REGISTER_BYTES],
    state: &mut [u8; STATE_LENGTH],
    table: &mut [u64],
    here: &mut [u16],
) -> Answer
    requires allowed { Allowed accepted.dictionary.now accepted.kernel.now accepted.marks.now registers.old state.old }
    requires blank { Blank accepted.kernel.now here.old × (3 * length accepted.kernel.now ≤ 8 * length table.old) }
    ensures { Left (step_call accepted.entry.dictionary.now accepted.entry.kernel.now registers.old state.old) result registers.new state.new }
{
    let start = enter(state, here);
    let end = accepted.kernel.len() / 8;
    let place = start.place as usize;
    if place == end {
        return Ok(Told {
            verdict: Verdict::Ended,
            count: 0,
        });
    }
    accepted.put_row(place, table);
    let out = run_on(
        table,
        end as u64,
        1,
        start,
        registers,
        &mut state[ADDRESSES_AT..],
        here,
    );
    match out.verdict {
        None => Err(Refused {
            refusal: Refusal::BadAddress,
            offset: 8 * out.stand.place,
            count: Some(0),
        }),
        Some(_) => {
            leave(out.stand, here, state);
            Ok(Told {
                verdict: Verdict::Accepted,
                count: 0,
            })
        }
    }
}

// A run. One that a broken address stops keeps the steps that it made.
fn run_over(
    accepted: Accepted,
    budget: u64,
    registers: &mut [u8; REGISTER_BYTES],
    state: &mut [u8; STATE_LENGTH],
    table: &mut [u64],
    here: &mut [u16],
) -> Answer
    requires allowed { Allowed accepted.dictionary.now accepted.kernel.now accepted.marks.now registers.old state.old × (budget ≤ budget_limit) }
    requires blank { Blank accepted.kernel.now here.old × (3 * length accepted.kernel.now ≤ 8 * length table.old) }
    ensures { Left (run_call accepted.entry.dictionary.now accepted.entry.kernel.now budget registers.old state.old) result registers.new state.new }
{
    let end = accepted.fill(table);
    let start = enter(state, here);
    let out = run_on(
        table,
        end,
        budget,
        start,
        registers,
        &mut state[ADDRESSES_AT..],
        here,
    );
    leave(out.stand, here, state);
    match out.verdict {
        Some(verdict) => Ok(Told {
            verdict,
            count: out.steps,
        }),
        None => Err(Refused {
            refusal: Refusal::BadAddress,
            offset: 8 * out.stand.place,
            count: Some(out.steps),
        }),
    }
}

// A step or a run of a kernel that has, with its end, ROOM places at most, and NUMBERS in the table of them, which stands beside ROOM since no length is computed from a const parameter.
fn made_in<const ROOM: usize, const NUMBERS: usize>(
    call: Call,
    accepted: Accepted,
    registers: &mut [u8; REGISTER_BYTES],
    state: &mut [u8; STATE_LENGTH],
) -> Answer
    requires allowed { Allowed accepted.dictionary.now accepted.kernel.now accepted.marks.now registers.old state.old × (budget_of call ≤ budget_limit) }
    requires room { (length accepted.kernel.now < 8 * ROOM) × (3 * ROOM ≤ NUMBERS) × (NUMBERS ≤ 65536) }
    ensures { Left (call_of call accepted.entry.dictionary.now accepted.entry.kernel.now registers.old state.old) result registers.new state.new }
{
    let mut table = [0; NUMBERS];
    let mut here = [0; ROOM];
    let here = &mut here[..accepted.kernel.len() / 8 + 1];
    match call {
        Call::Step => step_over(accepted, registers, state, &mut table, here),
        Call::Run(budget) => run_over(accepted, budget, registers, state, &mut table, here),
    }
}

// A step or a run of an accepted kernel from a legal state. It stays a function of its own, so that a call that is refused takes none of its tables' stack.
#[inline(never)]
pub(crate) fn made_lawful(
    call: Call,
    accepted: Accepted,
    registers: &mut [u8; REGISTER_BYTES],
    state: &mut [u8; STATE_LENGTH],
) -> Answer
    requires allowed { Allowed accepted.dictionary.now accepted.kernel.now accepted.marks.now registers.old state.old × (budget_of call ≤ budget_limit) }
    ensures { Left (call_of call accepted.entry.dictionary.now accepted.entry.kernel.now registers.old state.old) result registers.new state.new }
{
    let places = accepted.kernel.len() / 8 + 1;
    if places <= TINY {
        made_in::<TINY, TINY_NUMBERS>(call, accepted, registers, state)
    } else if places <= SMALL {
        made_in::<SMALL, SMALL_NUMBERS>(call, accepted, registers, state)
    } else {
        made_in::<PLACES, NUMBERS>(call, accepted, registers, state)
    }
}
