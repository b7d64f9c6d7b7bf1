// The commands that say what must have come of the last call.
ghost use Rattle.std.specs.Prelude.{◌≡◌, ◌+◌, ◌*◌, ◌^◌, ◌<◌, Some, IfSome};
ghost use Rattle.rows.specs.Outcomes.{outcome_of};

use crate::bytes::number_at;
use crate::desk::Desk;
use crate::row::Expectation;
use crate::sizes::OUTPUT;

// How an expectation came out: as the row says, or with another number. Unasked where the row is none.
#[derive(Clone, Copy, Debug, PartialEq, Eq)]
pub enum Outcome {
    Unasked,
    Right,
    Found(u64),
}

// What is told as found past the bytes' end: more than a row can ask for.
const NOTHING: u64 = 0x1_0000_0000;

// A number was found where another, or the same, was asked for.
pub fn compared(found: Option<u64>, asked: u64) -> Outcome
    ensures { result ≡ outcome_of found asked }
{
    match found {
        None => Outcome::Found(NOTHING),
        Some(found) if found == asked => Outcome::Right,
        Some(found) => Outcome::Found(found),
    }
}

// The answer that has these parts; none where a part is too wide.
fn answer_of(number: u32, offset: u32, count: u32) -> Option<u64>
    ensures some { IfSome result (λ answer. answer ≡ number + offset * 2 ^ 8 + count * 2 ^ 32) }
    ensures fits { number < 2 ^ 8 → offset < 2 ^ 24 → result ≡ Some (number + offset * 2 ^ 8 + count * 2 ^ 32) }
{
    if number >= 0x100 || offset >= 0x100_0000 {
        return None;
    }
    Some(u64::from(number) + u64::from(offset) * 0x100 + u64::from(count) * 0x1_0000_0000)
}

// What the last call answered, or left in the bytes. A row that asks for a dword past the registers' or the output's end is none.
pub fn expected(desk: &Desk, expectation: Expectation) -> Outcome {
    match expectation {
        Expectation::Answer {
            number,
            offset,
            count,
        } => match answer_of(number, offset, count) {
            Some(answer) if answer == desk.answer => Outcome::Right,
            _ => Outcome::Found(desk.answer),
        },
        Expectation::Wrote { at, value } => {
            seen(number_at::<4>(&desk.board[OUTPUT..], at as usize), value)
        }
        Expectation::Holds { at, value } => {
            seen(number_at::<4>(&desk.board[..OUTPUT], at as usize), value)
        }
        Expectation::Stands { at, value } => {
            compared(number_at::<2>(&desk.state, at as usize), u64::from(value))
        }
    }
}

// The same of a number that has to be there.
fn seen(found: Option<u64>, asked: u32) -> Outcome {
    if found.is_none() {
        return Outcome::Unasked;
    }
    compared(found, u64::from(asked))
}
