// One step, at a known instruction.
// What a step changes is lent in parts, since C lends the registers and the state as two, and the masks by place are a run's own; what goes from step to step by value is a Stand.
ghost use Rattle.std.specs.Prelude.{List, ◌≡◌, ℕ, ◌<◌, length, get_or};
ghost use Rattle.paper.specs.Limits.{address_bytes};
ghost use Rattle.paper.specs.Operation.{mov, plain, operation};
ghost use Rattle.paper.specs.Machine.{Channel, State, perform, step_at};
ghost use Rattle.words.specs.Words.{to_word};
ghost use Rattle.words.specs.Operations.{operation_is, plain_is};
ghost use Rattle.execute.specs.Stores.{store_of};
ghost use Rattle.execute.specs.Readable.{Counting, Reckoning, OnRegisters};
ghost use Rattle.machine.specs.Branches.{ways_is, Within};
ghost use Rattle.machine.specs.Posts.{Posted};
ghost use Rattle.machine.specs.Steps.{Shows};

use crate::branch::act;
use crate::dispatch::operation_here;
use crate::posts::rouse;
use crate::ways::Ways;
use execute::enable::voted;
use execute::execute::execute;
use execute::floats::reckon;
use execute::transfer::transfer;
use lanes::flags::Flags;
use words::bytes::Word;
use words::fields::opcode;
use words::limits::REGISTER_BYTES;
use words::operation::{Operation, Plain};

// Where a run stands: the flags, who is awake, and the place of the next step. Registers are lent beside it, a0's bytes, and who waits where.
#[derive(Clone, Copy)]
pub struct Stand {
    pub flags: Flags<u16>,
    pub awake: u16,
    pub place: u64,
}

// An instruction, once the channels that wait at its place are awake: a branch forks; what is no branch acts on registers and flags, and goes on. a0 stays.
fn perform(
    o: Operation,
    w: Word,
    ways: Ways,
    flags: Flags<u16>,
    up: u16,
    registers: &mut [u8; REGISTER_BYTES],
    here: &mut [u16],
) -> Stand
    requires o_value { (operation_is o ≡ operation (to_word w)) × OnRegisters (to_word w) }
    requires within { Within (length here.old) (ways_is ways) }
    ensures by_index { (addresses : List ℕ) (cs : List Channel) → Posted up here.old cs → Shows registers.new addresses here.new result
        (perform (operation_is o) (to_word w) (ways_is ways) (store_of registers.old flags addresses) cs) }
    ensures here_length { length here.new ≡ length here.old }
{
    match o {
        Operation::Makes(p) => {
            let flags = execute(p, w, u64::from(up), flags, registers);
            Stand {
                flags,
                awake: up,
                place: ways.next,
            }
        }
        Operation::Jumps(b) => {
            let forked = act(b, voted(w, flags.wide()) as u16, ways, up, here);
            Stand {
                flags,
                awake: forked.awake,
                place: forked.place,
            }
        }
        Operation::Nop | Operation::Unlisted => Stand {
            flags,
            awake: up,
            place: ways.next,
        },
    }
}

// One step where an accepted word stands whose operands are named directly, none of them a0 or a float; it first wakes the channels that wait there. a0 stays.
pub fn step_at(
    w: Word,
    ways: Ways,
    s: Stand,
    registers: &mut [u8; REGISTER_BYTES],
    here: &mut [u16],
) -> Stand
    requires on_registers { OnRegisters (to_word w) × Within (length here.old) (ways_is ways) }
    requires place_inside { s.place < length here.old }
    ensures by_index { (addresses : List ℕ) (t : State) → Shows registers.old addresses here.old s t
        → Shows registers.new addresses here.new result (step_at (to_word w) s.place (ways_is ways) t) }
    ensures here_length { length here.new ≡ length here.old }
{
    let up = rouse(s.awake, s.place, here);
    let o = operation_here(opcode(w));
    perform(o, w, ways, s.flags, up, registers, here)
}

// One step where a mov stands of which an operand is a0.
pub fn move_at(
    w: Word,
    ways: Ways,
    s: Stand,
    registers: &mut [u8; REGISTER_BYTES],
    addresses: &mut [u8],
    here: &mut [u16],
) -> Stand
    requires w_value { (operation (to_word w) ≡ plain mov) × Counting mov (to_word w) × (length addresses.old ≡ address_bytes) }
    requires place_inside { s.place < length here.old }
    ensures shows { (t : State) → Shows registers.old addresses.old here.old s t
        → Shows registers.new addresses.new here.new result (step_at (to_word w) s.place (ways_is ways) t) }
    ensures here_length { length here.new ≡ length here.old }
{
    let awake = rouse(s.awake, s.place, here);
    transfer(w, u64::from(awake), s.flags.wide(), registers, addresses);
    Stand {
        flags: s.flags,
        awake,
        place: ways.next,
    }
}

// One step where an operation on floats stands. a0 stays.
pub fn float_at(
    p: Plain,
    w: Word,
    ways: Ways,
    s: Stand,
    registers: &mut [u8; REGISTER_BYTES],
    here: &mut [u16],
) -> Stand
    requires w_value { (operation (to_word w) ≡ plain (plain_is p)) × Reckoning (plain_is p) (to_word w) }
    requires place_inside { s.place < length here.old }
    ensures by_index { (addresses : List ℕ) (t : State) → Shows registers.old addresses here.old s t
        → Shows registers.new addresses here.new result (step_at (to_word w) s.place (ways_is ways) t) }
    ensures here_length { length here.new ≡ length here.old }
{
    let awake = rouse(s.awake, s.place, here);
    let flags = reckon(p, w, u64::from(awake), s.flags, registers);
    Stand {
        flags,
        awake,
        place: ways.next,
    }
}
