// The state between two steps, and the bytes in which it is lent.
ghost use Rattle.std.specs.Prelude.{◌≡◌, true, List, ℕ, ◌<◌};
ghost use Rattle.paper.specs.State.{waiting_place, one_of_three, channels_in, addresses_in, state_of, all_three, state_bytes};
ghost use Rattle.lanes.specs.Values.{values};
ghost use Rattle.machine.specs.Channels.{channels_is, Sane};
ghost use Rattle.machine.specs.States.{state_is, SaneState, places_put};

use crate::channels::Channels;
use lanes::flags::Flags;
use lanes::mask::bit;
use words::bytes::{read2, write};
use words::limits::STATE_LENGTH;

// Flags, channels, and the place at which the next step is made. Registers are lent beside it, and a0's bytes stay where they are lent.
// It has no ghost field that it is sane (`SaneState`): `read_state` answers a State for any bytes, and only of those that `three` passes it is.
#[derive(Clone, Copy)]
pub struct State {
    pub flags: Flags<u16>,
    pub channels: Channels,
    pub place: u64,
}

// ---- reading

// The sixteen waiting places.
fn read_places(bytes: &[u8; STATE_LENGTH]) -> [u64; 16]
    ensures { (result ≡ values (waiting_place bytes.now) 16) × ((k : ℕ) → k < 16 → waiting_place bytes.now k < 65536) }
{
    let mut places = [0; 16];
    for n in 0..16 {
        places[n] = read2(bytes, 10 + 2 * n);
    }
    places
}

// The channels. They are sane if each is one of the three.
fn read_channels(bytes: &[u8; STATE_LENGTH]) -> Channels
    ensures { (channels_is result ≡ channels_in bytes.now 0 16) × (all_three bytes.now 16 ≡ true → Sane result) }
{
    Channels {
        awake: read2(bytes, 6) as u16,
        waiting: read2(bytes, 8) as u16,
        places: read_places(bytes),
    }
}

// The state that the bytes write, with whatever registers. It is sane if each channel is one of the three.
pub fn read_state(bytes: &[u8; STATE_LENGTH]) -> State
    ensures { ((registers : List ℕ) → state_is registers (addresses_in bytes.now) result ≡ state_of registers bytes.now)
        × (all_three bytes.now 16 ≡ true → SaneState result) }
{
    let flag0 = read2(bytes, 0) as u16;
    let flag1 = read2(bytes, 2) as u16;
    let place = read2(bytes, 4);
    State {
        flags: Flags { flag0, flag1 },
        channels: read_channels(bytes),
        place,
    }
}

// ---- off, awake or waiting

// Channel n is one of the three: it waits and is not awake, or it does not wait and its place is 0.
fn one_of_three(bytes: &[u8; STATE_LENGTH], n: usize) -> bool
    requires { n < 16 }
    ensures { result ≡ one_of_three bytes.now n }
{
    let awake = read2(bytes, 6);
    let waiting = read2(bytes, 8);
    if bit(waiting, n as u64) {
        !bit(awake, n as u64)
    } else {
        read2(bytes, 10 + 2 * n) == 0
    }
}

// All channels are one of the three.
pub fn three(bytes: &[u8; STATE_LENGTH]) -> bool
    ensures { result ≡ all_three bytes.now 16 }
{
    for n in 0..16 {
        if !one_of_three(bytes, n) {
            return false;
        }
    }
    true
}

// ---- writing

// Stores the sixteen waiting places.
fn write_places(bytes: &mut [u8; STATE_LENGTH], places: &[u64; 16])
    ensures { bytes.new ≡ places_put bytes.old places.now 16 }
{
    for n in 0..16 {
        write::<2>(bytes, 10 + 2 * n, places[n]);
    }
}

// Stores a state in its bytes, in front of a0's.
pub(crate) fn write_state(bytes: &mut [u8; STATE_LENGTH], s: State)
    requires { Sane s.channels }
    ensures { (registers : List ℕ) → bytes.new ≡ state_bytes (state_is registers (addresses_in bytes.old) s) }
{
    write::<2>(bytes, 0, u64::from(s.flags.flag0));
    write::<2>(bytes, 2, u64::from(s.flags.flag1));
    write::<2>(bytes, 4, s.place);
    write::<2>(bytes, 6, u64::from(s.channels.awake));
    write::<2>(bytes, 8, u64::from(s.channels.waiting));
    write_places(bytes, &s.channels.places);
}
