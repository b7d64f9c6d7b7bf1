// One distance in a word: read, followed, written, blanked.
ghost use Rattle.std.specs.Prelude.{◌≡◌, ◌-◌, ◌*◌, ◌<◌, ◌≤◌, ◌^◌};
ghost use Rattle.paper.specs.Bits.{bits, put};
ghost use Rattle.paper.specs.Jump.{base_of, reach};
ghost use Rattle.laws.specs.Moved.{aim};
ghost use Rattle.words.specs.Words.{to_word};
ghost use Rattle.distances.specs.Distances.{distance_is, told};

use words::bytes::Word;
use words::fields::{high_half, long_distance, low_half, short_distance};

// Where a distance stands and from where it counts: bits 63:48, JIP's 111:96 or UIP's 127:112, from the instruction's own start; or 127:96, from its end.
// It is copied and matched on, and never compared or printed, so no more is derived.
#[derive(Clone, Copy)]
pub enum Distance {
    Near,
    Far,
    Jip,
    Uip,
}

// Three matches, and no table with a row for each: of a row the half of the word and the place to count from would still be told by a test each.

// The distance's bits.
fn field(d: Distance, w: Word) -> u64
    ensures { (result ≡ bits (to_word w) (distance_is d).lo (distance_is d).width) × (result < 2 ^ 32) }
{
    match d {
        Distance::Near => short_distance(w),
        Distance::Far => long_distance(w),
        Distance::Jip => low_half(w),
        Distance::Uip => high_half(w),
    }
}

// The place from which it counts, of an instruction from place `here` to place `next`.
fn base(d: Distance, here: u64, next: u64) -> u64
    requires { (here < 131072) × (next < 131072) }
    ensures { (result ≡ base_of (distance_is d).base here next) × (result < 131072) }
{
    match d {
        Distance::Near | Distance::Jip | Distance::Uip => here,
        Distance::Far => next,
    }
}

// The least field that means a distance below 0.
fn half(d: Distance) -> u64
    ensures { (result ≡ 2 ^ ((distance_is d).width - 1)) × (2 * result ≡ 2 ^ (distance_is d).width) × (32768 ≤ result) × (result ≤ 2147483648) }
{
    match d {
        Distance::Near | Distance::Jip | Distance::Uip => 0x8000,
        Distance::Far => 0x8000_0000,
    }
}

// The place to which the distance in word w, an instruction from place `here` to place `next`, leads; none where it leads below place 0.
pub fn reach(d: Distance, w: Word, here: u64, next: u64) -> Option<u64>
    requires { (here < 131072) × (next < 131072) }
    ensures { result ≡ told (reach (distance_is d) (to_word w) here next) }
{
    let from = base(d, here, next);
    let distance = field(d, w);
    let least = half(d);
    if distance < least {
        return Some(from + distance);
    }
    if from + distance < 2 * least {
        return None;
    }
    Some(from + distance - 2 * least)
}

// Each field is written by its own powers of 2: one function of a place and a width would need three shifts, and a law for each half of a word.

// The word with `distance` in bits 63:48.
fn with_near(w: Word, distance: u64) -> Word
    requires { distance < 2 ^ 16 }
    ensures { to_word result ≡ put (to_word w) 48 16 distance }
{
    Word {
        lo: w.lo % 0x1_0000_0000_0000 + distance * 0x1_0000_0000_0000,
        hi: w.hi,
    }
}

// The word with `distance` in bits 127:96.
fn with_far(w: Word, distance: u64) -> Word
    requires { distance < 2 ^ 32 }
    ensures { to_word result ≡ put (to_word w) 96 32 distance }
{
    Word {
        lo: w.lo,
        hi: w.hi % 0x1_0000_0000 + distance * 0x1_0000_0000,
    }
}

// The word with `distance` in bits 111:96.
fn with_jip(w: Word, distance: u64) -> Word
    requires { distance < 2 ^ 16 }
    ensures { to_word result ≡ put (to_word w) 96 16 distance }
{
    let below = w.hi % 0x1_0000_0000;
    let above = w.hi / 0x1_0000_0000_0000;
    Word {
        lo: w.lo,
        hi: below + distance * 0x1_0000_0000 + above * 0x1_0000_0000_0000,
    }
}

// The word with `distance` in bits 127:112.
fn with_uip(w: Word, distance: u64) -> Word
    requires { distance < 2 ^ 16 }
    ensures { to_word result ≡ put (to_word w) 112 16 distance }
{
    Word {
        lo: w.lo,
        hi: w.hi % 0x1_0000_0000_0000 + distance * 0x1_0000_0000_0000,
    }
}

// The word with other bits for the distance.
fn with_field(d: Distance, w: Word, distance: u64) -> Word
    requires { distance < 2 ^ (distance_is d).width }
    ensures { to_word result ≡ put (to_word w) (distance_is d).lo (distance_is d).width distance }
{
    match d {
        Distance::Near => with_near(w, distance),
        Distance::Far => with_far(w, distance),
        Distance::Jip => with_jip(w, distance),
        Distance::Uip => with_uip(w, distance),
    }
}

// The word with the distance that leads from an instruction from place `here` to place `next` to the place `to`.
pub fn aim(d: Distance, w: Word, here: u64, next: u64, to: u64) -> Word
    requires { (here ≤ 32768) × (next ≤ 32768) × (to ≤ 32768) }
    ensures { to_word result ≡ aim (distance_is d) (to_word w) here next to }
{
    let from = base(d, here, next);
    let span = 2 * half(d);
    with_field(d, w, (to + span - from) % span)
}

// The word with 0 for the distance.
pub fn blanked(d: Distance, w: Word) -> Word
    ensures { to_word result ≡ put (to_word w) (distance_is d).lo (distance_is d).width 0 }
{
    with_field(d, w, 0)
}
