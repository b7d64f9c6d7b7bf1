// Channels by place: a mask of the awake ones, and for each place of the kernel a mask of those that wait there. Bit n of a mask is channel n's.
// The two stand apart in each signature and are no struct: they are handed on in the loop of a run, where a struct would go through memory, as a region does (`operands::gather`).
ghost use Rattle.std.specs.Prelude.{◌≡◌, cond, not, ◌<◌, eqb, length, get_or, set};
ghost use Rattle.machine.specs.Together.{both_mask, either_mask, without_mask};

use crate::ways::Ways;

// Those that wait at a place wake. The answer is who is awake then.
pub(crate) fn rouse(up: u16, place: u64, here: &mut [u16]) -> u16
    requires { place < length here.old }
    ensures { (result ≡ either_mask up (get_or here.old place 0)) × (here.new ≡ set here.old place 0) }
{
    let i = place as usize;
    let woken = here[i];
    here[i] = 0;
    up | woken
}

// The awake channels of a mask wait at a place. The answer is who is awake then.
pub(crate) fn post(up: u16, mask: u16, place: u64, here: &mut [u16]) -> u16
    requires { place < length here.old }
    ensures { (result ≡ without_mask up mask)
        × (here.new ≡ set here.old place (either_mask (get_or here.old place 0) (both_mask up mask))) }
{
    let i = place as usize;
    here[i] |= up & mask;
    up & !mask
}

// To the next place, but to the jump if no channel is awake and none waits at the next place.
pub(crate) fn onward(up: u16, ways: Ways, here: &[u16]) -> u64
    requires { ways.next < length here.now }
    ensures { result ≡ cond (not (eqb (either_mask up (get_or here.now ways.next 0)) 0)) ways.next ways.jump }
{
    let i = ways.next as usize;
    if (up | here[i]) == 0 {
        ways.jump
    } else {
        ways.next
    }
}
