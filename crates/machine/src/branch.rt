// Branches: who is awake and who waits where afterwards, and to which place the kernel goes.
ghost use Rattle.std.specs.Prelude.{◌≡◌, cond, length};
ghost use Rattle.paper.specs.Bits.{bit};
ghost use Rattle.paper.specs.Operation.{while};
ghost use Rattle.words.specs.Operations.{branch_is};
ghost use Rattle.machine.specs.Branches.{ways_is, Within, ActsBy, ParksBy};

use crate::posts::{onward, post};
use crate::ways::Ways;
use lanes::mask::bit;
use words::operation::Branch;

// Who is awake after a branch, and the place that it leads to.
#[derive(Clone, Copy)]
pub struct Forked {
    pub awake: u16,
    pub place: u64,
}

// jmpi: it jumps if bit 0 of the predicate is 1. It looks at no channel.
fn jump(up: u16, predicate: u16, ways: Ways) -> Forked
    ensures { (result.awake ≡ up) × (result.place ≡ cond (bit predicate 0) ways.jump ways.next) }
{
    let place = if bit(u64::from(predicate), 0) {
        ways.jump
    } else {
        ways.next
    };
    Forked { awake: up, place }
}

// while: if some awake channel's predicate holds, the other awake ones wait at the next place, and it jumps; otherwise go on.
fn repeat(up: u16, predicate: u16, ways: Ways, here: &mut [u16]) -> Forked
    requires { Within (length here.old) (ways_is ways) }
    ensures { ActsBy while predicate (ways_is ways) up here.old result here.new × (length here.new ≡ length here.old) }
{
    if (up & predicate) == 0 {
        return Forked {
            awake: up,
            place: ways.next,
        };
    }
    let awake = post(up, !predicate, ways.next, here);
    Forked {
        awake,
        place: ways.jump,
    }
}

// if, else, break and cont: awake channels of a mask wait; then to the next place, or to the jump if no channel is awake and none waits at the next place.
#[inline(always)]
fn park(up: u16, mask: u16, ways: Ways, here: &mut [u16]) -> Forked
    requires { Within (length here.old) (ways_is ways) }
    ensures { ParksBy mask (ways_is ways) up here.old result here.new × (length here.new ≡ length here.old) }
{
    let awake = post(up, mask, ways.wait, here);
    let place = onward(awake, ways, here);
    Forked { awake, place }
}

// A branch, by the mask of the channels whose predicate holds, once the channels that wait at its place are awake.
pub(crate) fn act(b: Branch, predicate: u16, ways: Ways, up: u16, here: &mut [u16]) -> Forked
    requires { Within (length here.old) (ways_is ways) }
    ensures { ActsBy (branch_is b) predicate (ways_is ways) up here.old result here.new × (length here.new ≡ length here.old) }
{
    match b {
        Branch::Jmpi => jump(up, predicate, ways),
        Branch::If => park(up, !predicate, ways, here),
        Branch::Else => park(up, u16::MAX, ways, here),
        Branch::Endif => Forked {
            awake: up,
            place: onward(up, ways, here),
        },
        Branch::While => repeat(up, predicate, ways, here),
        Branch::Break | Branch::Cont => park(up, predicate, ways, here),
    }
}
