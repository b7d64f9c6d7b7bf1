// 15: the lent state's places are instruction starts or the end, and each channel is off, awake or waiting.
ghost use Rattle.std.specs.Prelude.{◌≡◌, true, cond};
ghost use Rattle.kernel.specs.Marks.{marked};
ghost use Rattle.machine.specs.Channels.{channels_is};
ghost use Rattle.run.specs.Landing.{waits_by, legal_by};

use kernel::jumps::is_marked;
use lanes::mask::bit;
use machine::channels::Channels;
use machine::state::{read_state, three};
use words::limits::{PLACES, STATE_LENGTH};

// A channel that waits at a place does so at a mark; of one that does not wait nothing is asked.
// Waiting and the place are two, as the state's bytes and `Channels` have them: an Option would be made of them for this one test.
fn rests(marks: &[u8; PLACES], waits: bool, place: u64) -> bool
    ensures { result ≡ cond waits (marked marks.now place) true }
{
    !waits || is_marked(marks, place)
}

// Each channel that waits does so at a mark.
fn all_rest(marks: &[u8; PLACES], channels: Channels) -> bool
    ensures { result ≡ waits_by (marked marks.now) (channels_is channels) }
{
    for n in 0..16 {
        let waits = bit(u64::from(channels.waiting), n as u64);
        if !rests(marks, waits, channels.places[n]) {
            return false;
        }
    }
    true
}

// A state is legal in a kernel that has these marks.
pub(crate) fn is_legal(marks: &[u8; PLACES], bytes: &[u8; STATE_LENGTH]) -> bool
    ensures { result ≡ legal_by (marked marks.now) bytes.now }
{
    let s = read_state(bytes);
    is_marked(marks, s.place) && all_rest(marks, s.channels) && three(bytes)
}
