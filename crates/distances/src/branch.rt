// The distances of an operation.
ghost use Rattle.std.specs.Prelude.{◌≡◌};
ghost use Rattle.paper.specs.Jump.{distances, distances_of};
ghost use Rattle.paper.specs.Operation.{operation};
ghost use Rattle.paper.specs.Program.{blank};
ghost use Rattle.words.specs.Operations.{branch_is, operation_is};
ghost use Rattle.words.specs.Words.{to_word};
ghost use Rattle.distances.specs.Distances.{distances_is};

use crate::distance::{Distance, blanked};
use words::bytes::Word;
use words::fields::operation;
use words::operation::{Branch, Operation};

// None, as of what is no branch, one or two, in the order in which they are judged.
#[derive(Clone, Copy)]
pub enum Distances {
    Nothing,
    One(Distance),
    Two(Distance, Distance),
}

// A branch's.
fn of_branch(b: Branch) -> Distances
    ensures { distances_is result ≡ distances_of (branch_is b) }
{
    match b {
        Branch::Jmpi => Distances::One(Distance::Far),
        Branch::If | Branch::Else | Branch::Endif | Branch::While => Distances::One(Distance::Near),
        Branch::Break | Branch::Cont => Distances::Two(Distance::Jip, Distance::Uip),
    }
}

// A word's.
pub fn distances_in(w: Word) -> Distances
    ensures { distances_is result ≡ distances (operation (to_word w)) }
{
    match operation(w) {
        Operation::Jumps(b) => of_branch(b),
        Operation::Makes(_) | Operation::Nop | Operation::Unlisted => Distances::Nothing,
    }
}

// The word with 0 for each of its distances: what two kernels that jump alike have in common.
pub fn blank(w: Word) -> Word
    ensures { to_word result ≡ blank (to_word w) }
{
    let held = distances_in(w);
    match held {
        Distances::Nothing => w,
        Distances::One(d) => blanked(d, w),
        Distances::Two(d, e) => blanked(e, blanked(d, w)),
    }
}
