// Votes: a flag's bits judged in groups of channels, for all groups at once.
ghost use Rattle.std.specs.Prelude.{◌≡◌, ◌*◌, ◌^◌, ◌≤◌, ◌<◌};
ghost use Rattle.paper.specs.Enable.{group_of};
ghost use Rattle.lanes.specs.Masks.{lower_halves, joined_mask, any_mask, vote_mask};

use crate::mask::ALL;

// Each channel takes in the bit of its opposite in the neighbouring half of `half` channels; `low` has the channels of the lower halves.
fn joined(mask: u64, half: u64, low: u64) -> u64
    requires mask_bound { (mask < 65536) × (0 < half) × (half ≤ 8) }
    requires low_value { (low ≡ lower_halves half) × (low * 2 ^ half < 65536) }
    ensures { (result ≡ joined_mask half mask) × (result < 65536) }
{
    mask | ((mask >> half) & low) | ((mask & low) << half)
}

// The channels in whose group some bit of the flag is 1, the group being PredCtrl's: pairs are joined, then pairs of pairs, and so on.
fn any_mask(flag: u64, control: u64) -> u64
    requires { (flag < 65536) × (4 ≤ control) }
    ensures { (result ≡ any_mask (group_of control) flag) × (result < 65536) }
{
    let twos = joined(flag, 1, 0x5555);
    if control < 6 {
        return twos;
    }
    let fours = joined(twos, 2, 0x3333);
    if control < 8 {
        return fours;
    }
    let eights = joined(fours, 4, 0x0F0F);
    if control < 10 {
        return eights;
    }
    joined(eights, 8, 0x00FF)
}

// The channels whose group votes for it: with PredCtrl below 4 each has its own bit; all is that not any bit is 0.
pub(crate) fn vote_mask(flag: u64, control: u64) -> u64
    ensures { (result ≡ vote_mask control flag) × (result < 65536) }
{
    let bits = flag % 65536;
    if control < 4 {
        return bits;
    }
    if control % 2 == 0 {
        any_mask(bits, control)
    } else {
        ALL - any_mask(ALL - bits, control)
    }
}
