// Steps of an accepted kernel, which is not judged again.
ghost use Rattle.std.specs.Prelude.{List};
ghost use Rattle.paper.specs.Kernel.{Instr};
ghost use Rattle.paper.specs.Machine.{State};
ghost use Rattle.run.specs.Running.{Running};
ghost use Rattle.run.specs.Tables.{Tabled};
ghost use Rattle.run.specs.Outcomes.{Ends};

use crate::acting::{Act, acting};
use crate::ahead::row_at;
use machine::step::{Stand, float_at, move_at, step_at};
use words::answer::Verdict;
use words::limits::REGISTER_BYTES;

// What a run comes to: how it ends, which is nothing at a broken address; the steps that were made; and where it stands.
#[derive(Clone, Copy)]
pub struct Outcome {
    pub verdict: Option<Verdict>,
    pub steps: u64,
    pub stand: Stand,
}

// Steps of the instructions in a table, until the end, until the budget is spent, or until an address is broken, which is judged before anything wakes.
pub(crate) fn run_on(
    table: &[u64],
    end: u64,
    budget: u64,
    start: Stand,
    registers: &mut [u8; REGISTER_BYTES],
    addresses: &mut [u8],
    here: &mut [u16],
) -> Outcome
    requires { (k : List Instr) × (t : State) × Running k registers.old addresses.old here.old start t × Tabled k end budget start.place table.now }
    ensures { (k : List Instr) (t : State) → Running k registers.old addresses.old here.old start t → Tabled k end budget start.place table.now
        → Ends k budget t registers.new addresses.new here.new result }
{
    let mut s = start;
    // It steps by what stands there, and not by a count.
    let mut steps = 0;
    while s.place != end {
        if steps == budget {
            return Outcome {
                verdict: Some(Verdict::Spent),
                steps: budget,
                stand: s,
            };
        }
        let row = row_at(table, s.place);
        let ways = row.ways;
        match acting(row.unusual, row.word, addresses) {
            Act::Steps(w) => {
                s = step_at(w, ways, s, registers, here);
                steps += 1;
            }
            Act::Moves(w) => {
                s = move_at(w, ways, s, registers, addresses, here);
                steps += 1;
            }
            Act::Reckons(p, w) => {
                s = float_at(p, w, ways, s, registers, here);
                steps += 1;
            }
            Act::Broken => {
                return Outcome {
                    verdict: None,
                    steps,
                    stand: s,
                };
            }
        }
    }
    Outcome {
        verdict: Some(Verdict::Ended),
        steps,
        stand: s,
    }
}
