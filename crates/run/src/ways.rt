// Where an instruction of an accepted kernel leads.
ghost use Rattle.std.specs.Prelude.{◌≡◌, ◌<◌};
ghost use Rattle.paper.specs.Machine.{ways_of};
ghost use Rattle.words.specs.Words.{to_word};
ghost use Rattle.kernel.specs.Jumps.{instr_of};
ghost use Rattle.machine.specs.Branches.{ways_is};

use distances::branch::{Distances, distances_in};
use distances::distance::reach;
use machine::ways::Ways;
use words::bytes::Word;

// The ways of word w, an instruction of `size` places from place `here` on. What has no distance leads to the next place alone; what has two jumps by the first,
// and parks channels by the second.
// A place that there is not is 0, and no Option, as the paper's `leads` has it: the three stand in one number of a run's table.
pub(crate) fn ways_of(w: Word, here: u64, size: u64) -> Ways
    requires { (here < 65536) × (size < 65536) }
    ensures { ways_is result ≡ ways_of (instr_of here size (to_word w)) }
{
    let next = here + size;
    let held = distances_in(w);
    match held {
        Distances::Nothing => Ways {
            next,
            jump: 0,
            wait: 0,
        },
        Distances::One(d) => {
            let target = reach(d, w, here, next).unwrap_or(0);
            Ways {
                next,
                jump: target,
                wait: target,
            }
        }
        Distances::Two(d, e) => {
            let jump = reach(d, w, here, next).unwrap_or(0);
            let wait = reach(e, w, here, next).unwrap_or(0);
            Ways { next, jump, wait }
        }
    }
}
