// The second pass over a kernel: 12, once all its instructions are known.
ghost use Rattle.std.specs.Prelude.{◌≡◌};
ghost use Rattle.paper.specs.Jump.{targets_of};
ghost use Rattle.kernel.specs.Marks.{marked};
ghost use Rattle.kernel.specs.Instructions.{instr_is, instrs_left};
ghost use Rattle.kernel.specs.Jumps.{land_by, first_out, astray_is};

use crate::instructions::{Instruction, Instructions};
use words::limits::PLACES;

// The place is marked. No place past the marks is.
pub fn is_marked(marks: &[u8; PLACES], place: u64) -> bool
    ensures { result ≡ marked marks.now place }
{
    if PLACES as u64 <= place {
        return false;
    }
    let i = place as usize;
    marks[i] == 1
}

// Each distance of the instruction leads to a mark.
pub fn jump_lands(marks: &[u8; PLACES], i: Instruction) -> bool
    ensures { result ≡ land_by (marked marks.now) (targets_of (instr_is i)) }
{
    i.each_lands(|place| is_marked(marks, place))
}

// The byte offset of the first branch, in kernel order, with a distance that leads to no mark.
pub(crate) fn first_astray(all: Instructions, marks: &[u8; PLACES]) -> Option<u64>
    ensures { astray_is result ≡ first_out (marked marks.now) (instrs_left all.entry) }
{
    for i in all {
        if !jump_lands(marks, i) {
            return Some(8 * i.place);
        }
    }
    None
}
