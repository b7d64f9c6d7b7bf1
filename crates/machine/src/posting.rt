// The two ends of a run: from channels with their places to a mask for each place, and back.
ghost use Rattle.std.specs.Prelude.{◌≡◌, true, cond, List, ℕ, ◌^◌, ◌<◌, ◌≤◌, length, get_or, set};
ghost use Rattle.paper.specs.Bits.{bit};
ghost use Rattle.paper.specs.Machine.{Channel};
ghost use Rattle.lanes.specs.Mapped.{Mapped};
ghost use Rattle.machine.specs.Together.{either_mask};
ghost use Rattle.machine.specs.Channels.{channels_is, Sane};
ghost use Rattle.machine.specs.Posts.{Posted};

use crate::channels::Channels;
use lanes::mask::bit;

// Channel n, if it waits, is put into the mask of its place.
fn post_one(waiting: u16, place: u64, n: u64, here: &mut [u16])
    requires { (n < 16) × (bit waiting n ≡ true → place < length here.old) }
    ensures { here.new ≡ cond (bit waiting n) (set here.old place (either_mask (get_or here.old place 0) (2 ^ n))) here.old }
{
    if bit(u64::from(waiting), n) {
        let i = place as usize;
        here[i] |= 1 << n;
    }
}

// Each channel that waits is put into the mask of its place. No mask has a channel before.
pub(crate) fn post_all(c: Channels, here: &mut [u16])
    requires { Sane c × ((p : ℕ) → get_or here.old p 0 ≡ 0)
        × ((k : ℕ) → k < 16 → bit c.waiting k ≡ true → get_or c.places k 0 < length here.old) }
    ensures { Posted c.awake here.new (channels_is c) × (length here.new ≡ length here.old) }
{
    let places = c.places;
    for n in 0..16 {
        post_one(c.waiting, places[n], n as u64, here);
    }
}

// The channels of a mask have another place. Where the mask has none, as at most places, nothing is done.
fn place_those(mask: u16, place: u64, places: &mut [u64; 16])
    ensures { Mapped (λ k old new. new ≡ cond (bit mask k) place old) 16 places.old places.new }
{
    if mask == 0 {
        return;
    }
    for n in 0..16 {
        if bit(u64::from(mask), n as u64) {
            places[n] = place;
        }
    }
}

// The channels that the masks tell.
pub(crate) fn channels_from(up: u16, here: &[u16]) -> Channels
    requires { length here.now ≤ 65536 }
    ensures { (cs : List Channel) → Posted up here.now cs → (channels_is result ≡ cs) × Sane result }
{
    let mut waiting = 0;
    let mut places = [0; 16];
    for p in 0..here.len() {
        let mask = here[p];
        waiting |= mask;
        place_those(mask, p as u64, &mut places);
    }
    Channels {
        awake: up,
        waiting,
        places,
    }
}
