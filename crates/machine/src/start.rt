// The start: place 0, sixteen channels, awake where the mask has 1 and off for good where it has 0, flags given, zeros in a0.
ghost use Rattle.std.specs.Prelude.{◌≡◌, List, ℕ, replicate};
ghost use Rattle.paper.specs.Limits.{address_bytes};
ghost use Rattle.paper.specs.Calls.{start_call};
ghost use Rattle.laws.specs.Demands.{begun};
ghost use Rattle.words.specs.Answer.{Wrote};
ghost use Rattle.machine.specs.States.{state_is, SaneState};

use crate::channels::Channels;
use crate::state::{State, write_state};
use lanes::flags::Flags;
use words::answer::{Answer, accepted};
use words::bytes::{Word, write16};
use words::limits::ADDRESSES_AT;
use words::refusal::Refusal;

// The state at a start.
pub fn started(mask: u16, flag0: u16, flag1: u16) -> State
    ensures { ((registers : List ℕ) → state_is registers (replicate address_bytes 0) result ≡ begun registers flag0 flag1 mask) × SaneState result }
{
    State {
        flags: Flags { flag0, flag1 },
        channels: Channels {
            awake: mask,
            waiting: 0,
            places: [0; 16],
        },
        place: 0,
    }
}

// Writes the state at a start to bytes that are lent for it. 1 where they are not as many as a state has; they then stay as they are.
pub fn start(mask: u16, flag0: u16, flag1: u16, bytes: &mut [u8]) -> Answer
    ensures { Wrote (start_call mask flag0 flag1 bytes.old) result bytes.new }
{
    match bytes.as_mut_array() {
        None => Err(Refusal::WrongSize.into()),
        Some(bytes) => {
            write16(bytes, ADDRESSES_AT, Word { lo: 0, hi: 0 });
            write_state(bytes, started(mask, flag0, flag1));
            accepted(0)
        }
    }
}
