// Masks of channels: numbers of 16 bits, bit m being channel m's.
ghost use Rattle.std.specs.Prelude.{◌≡◌, ◌*◌, ◌<◌};
ghost use Rattle.paper.specs.Bits.{bit};
ghost use Rattle.paper.specs.Enable.{how_many};
ghost use Rattle.lanes.specs.Masks.{predicate_mask, unmasked_mask, passed_mask, enable_mask, quarter_mask, raised_mask};

use crate::votes::vote_mask;

// The mask of all sixteen channels.
pub const ALL: u64 = 65535;

// Bit k of a mask is 1.
pub fn bit(mask: u64, k: u64) -> bool
    requires { k < 64 }
    ensures { result ≡ bit mask k }
{
    (mask >> k) % 2 == 1
}

// The channels whose predicate holds, by PredCtrl and PredInv: all if there is no predicate, else those whose group votes for it, or the others if inverted.
pub fn predicate_mask(flag: u64, control: u64, inversion: u64) -> u64
    ensures { (result ≡ predicate_mask control inversion flag) × (result < 65536) }
{
    if control == 0 {
        return ALL;
    }
    let votes = vote_mask(flag, control);
    if inversion == 1 { ALL - votes } else { votes }
}

// The channels that may work: the awake ones, or all if WECtrl, here `force`, is 1.
fn unmasked(awake: u64, force: u64) -> u64
    ensures { result ≡ unmasked_mask force awake }
{
    if force == 1 { ALL } else { awake % 65536 }
}

// The channels that the predicate leaves: those for which it holds, or all if it does not mask.
// The predicate stands beside whether it masks, and is no Option, as `enable_mask` is defined of both: where it does not mask it is reckoned all the same.
fn passed(masks: bool, predicate: u64) -> u64
    ensures { result ≡ passed_mask masks predicate }
{
    if masks { predicate % 65536 } else { ALL }
}

// The enabled channels, by the awake ones, WECtrl, whether the predicate masks, and the channels whose predicate holds.
pub fn enable_mask(awake: u64, force: u64, masks: bool, predicate: u64) -> u64
    ensures { (result ≡ enable_mask force masks awake predicate) × (result < 65536) }
{
    unmasked(awake, force) & passed(masks, predicate)
}

// A mask as an instruction of that quarter numbers its channels: bit n is its channel n's.
pub fn quarter_mask(mask: u64, quarter: u64) -> u64
    requires { quarter < 4 }
    ensures { result ≡ quarter_mask mask quarter }
{
    mask >> (8 * quarter)
}

// A mask of an instruction's own channels by channel number: bit 8q + n is its channel n's.
pub fn raised_mask(mask: u64, quarter: u64) -> u64
    requires { (mask < 65536) × (quarter < 4) }
    ensures { result ≡ raised_mask mask quarter }
{
    mask << (8 * quarter)
}

// How many channels are awake.
pub fn count_awake(mask: u16) -> u32
    ensures { result ≡ how_many (bit mask) 16 }
{
    mask.count_ones()
}
