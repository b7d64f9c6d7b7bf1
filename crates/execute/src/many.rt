// An instruction on any number of channels, its numbers in arrays of sixteen.
// Arrays, and beside them how many channels there are: memory is fixed, and no instruction has more than sixteen.
ghost use Rattle.std.specs.Prelude.{false, List, ◌≡◌, ℕ, ◌<◌};
ghost use Rattle.paper.specs.Legal.{uses_a0};
ghost use Rattle.paper.specs.Effect.{plain_effect};
ghost use Rattle.words.specs.Words.{to_word};
ghost use Rattle.words.specs.Operations.{plain_is};
ghost use Rattle.lanes.specs.Masks.{awake_list};
ghost use Rattle.execute.specs.Stores.{store_of};
ghost use Rattle.execute.specs.Readable.{Counting};

use crate::compare::flags_after;
use crate::destination::write;
use crate::enable::{enable_of, predicate_of};
use crate::results::results;
use lanes::flags::Flags;
use lanes::mask::quarter_mask;
use words::bytes::Word;
use words::fields::qtr_ctrl;
use words::limits::REGISTER_BYTES;
use words::operation::Plain;

// An instruction on any number of channels: its sources are read, its results stored where its channels are enabled, its flags answered.
pub(crate) fn execute_many(
    p: Plain,
    w: Word,
    awake: u64,
    flags: Flags<u16>,
    registers: &mut [u8; REGISTER_BYTES],
) -> Flags<u16>
    requires { Counting (plain_is p) (to_word w) × (uses_a0 (plain_is p) (to_word w) ≡ false) }
    ensures by_index { (addresses : List ℕ) → registers.new ≡ (plain_effect (plain_is p) (to_word w) (awake_list awake) (store_of registers.old flags addresses)).registers }
    ensures by_index_2 { (addresses : List ℕ) → (result.flag0 ≡ (plain_effect (plain_is p) (to_word w) (awake_list awake) (store_of registers.old flags addresses)).flag0)
        × (result.flag1 ≡ (plain_effect (plain_is p) (to_word w) (awake_list awake) (store_of registers.old flags addresses)).flag1) }
{
    let quarter = qtr_ctrl(w);
    let predicate = predicate_of(w, flags.wide());
    let enable = enable_of(p, w, awake, predicate);
    let mut made = [0u64; 16];
    results(p, w, quarter_mask(predicate, quarter), registers, &mut made);
    write(w, quarter_mask(enable, quarter), registers, &made);
    flags_after(p, w, flags, enable, &made)
}
