// The two ends of a run: from the state's bytes to where a run stands, and back.
// Who waits is a mask for each place of fixed memory that is lent, since there is no heap (docs/DECISIONS.md, 75).
ghost use Rattle.std.specs.Prelude.{◌≡◌, true, List, ℕ, ◌<◌, ◌≤◌, length, get_or};
ghost use Rattle.paper.specs.Machine as paper;
ghost use Rattle.paper.specs.State.{channels_in, addresses_in, state_of, all_three, state_bytes};
ghost use Rattle.machine.specs.Steps.{Shows};
ghost use Rattle.machine.specs.Ends.{Inside};

use crate::posting::{channels_from, post_all};
use crate::state::{State, read_state, write_state};
use crate::step::Stand;
use words::limits::STATE_LENGTH;

// Where the state in the bytes stands, each channel that waits being put into the mask of its place. No mask has a channel before.
pub fn enter(bytes: &[u8; STATE_LENGTH], here: &mut [u16]) -> Stand
    requires { (all_three bytes.now 16 ≡ true) × ((p : ℕ) → get_or here.old p 0 ≡ 0) × Inside (length here.old) (channels_in bytes.now 0 16) }
    ensures by_index_2 { (registers : List ℕ) → Shows registers (addresses_in bytes.now) here.new result (state_of registers bytes.now) }
    ensures here_length { length here.new ≡ length here.old }
{
    let s = read_state(bytes);
    post_all(s.channels, here);
    Stand {
        flags: s.flags,
        awake: s.channels.awake,
        place: s.place,
    }
}

// Stores in the bytes the state where a run stands. a0's are there already.
pub fn leave(s: Stand, here: &[u16], bytes: &mut [u8; STATE_LENGTH])
    requires { (length here.now ≤ 65536) × (registers : List ℕ) × (t : paper.State) × Shows registers (addresses_in bytes.old) here.now s t }
    ensures { (registers : List ℕ) (t : paper.State) → Shows registers (addresses_in bytes.old) here.now s t → bytes.new ≡ state_bytes t }
{
    let after = State {
        flags: s.flags,
        channels: channels_from(s.awake, here),
        place: s.place,
    };
    write_state(bytes, after);
}
