// An instruction on one channel, without arrays.
ghost use Rattle.std.specs.Prelude.{false, List, ◌≡◌, ℕ, ◌<◌, length};
ghost use Rattle.paper.specs.Word.{src0, dst_is_a0, src_is_a0};
ghost use Rattle.paper.specs.Legal.{uses_a0, bytes_in};
ghost use Rattle.paper.specs.Region.{channels};
ghost use Rattle.paper.specs.Effect.{plain_effect};
ghost use Rattle.words.specs.Words.{to_word};
ghost use Rattle.words.specs.Operations.{plain_is};
ghost use Rattle.lanes.specs.Masks.{awake_list};
ghost use Rattle.operands.specs.Single.{alone};
ghost use Rattle.execute.specs.Stores.{store_of};
ghost use Rattle.execute.specs.Readable.{Counting, Writable};
ghost use Rattle.execute.specs.Results.{SecondRead, Makes};
ghost use Rattle.execute.specs.Effects.{written};

use crate::compare::flags_of_one;
use crate::enable::{enable_of, predicate_of};
use element::result::compute;
use element::value::{BASE, clamp};
use lanes::flags::Flags;
use lanes::mask::{bit, quarter_mask};
use lanes::scatter::store_channel;
use operands::one::number_of;
use words::bytes::Word;
use words::fields::{cond_modifier, dst_type, is_null, qtr_ctrl, saturate};
use words::limits::REGISTER_BYTES;
use words::operation::Plain;
use words::region::dst_region;
use words::traits::reads_two;

// The second operand, where the operation reads one; else what stands for 0.
fn second_of(p: Plain, w: Word, registers: &[u8]) -> u64
    requires { Counting (plain_is p) (to_word w) × (length registers.now ≡ bytes_in (src_is_a0 src0 (to_word w))) × (uses_a0 (plain_is p) (to_word w) ≡ false) }
    ensures { SecondRead (plain_is p) (to_word w) registers.now 1 (alone result) }
{
    if reads_two(p) {
        number_of::<true>(w, registers)
    } else {
        BASE
    }
}

// What the channel makes: all sources are read first. The number's low bits, as many as the destination's type has, are the pattern that is stored.
fn result_of(p: Plain, w: Word, predicate: u64, registers: &[u8]) -> u64
    requires { Counting (plain_is p) (to_word w) × (length registers.now ≡ bytes_in (src_is_a0 src0 (to_word w))) × (channels (to_word w) ≡ 1) × (uses_a0 (plain_is p) (to_word w) ≡ false) }
    ensures { Makes (plain_is p) (to_word w) predicate registers.now (alone result) }
{
    let a = number_of::<false>(w, registers);
    let b = second_of(p, w, registers);
    let v = compute(p, cond_modifier(w), bit(predicate, 0), a, b);
    if saturate(w) == 1 {
        clamp(dst_type(w), v)
    } else {
        v
    }
}

// The result stored where the mask enables the channel; a null destination stores nothing.
fn store(w: Word, enable: u64, registers: &mut [u8], v: u64)
    requires { Writable (to_word w) × (length registers.old ≡ bytes_in (dst_is_a0 (to_word w))) × (channels (to_word w) ≡ 1) × (dst_is_a0 (to_word w) ≡ false) }
    ensures { registers.new ≡ written (to_word w) enable registers.old (alone v) }
{
    if is_null(w) {
        return;
    }
    let r = dst_region(false, w);
    store_channel(registers, r.origin, r.size, enable, 0, v);
}

// An instruction on one channel: its sources are read, its result stored if the channel is enabled, its flags answered.
pub(crate) fn execute_one(
    p: Plain,
    w: Word,
    awake: u64,
    flags: Flags<u16>,
    registers: &mut [u8; REGISTER_BYTES],
) -> Flags<u16>
    requires { Counting (plain_is p) (to_word w) × (uses_a0 (plain_is p) (to_word w) ≡ false) × (channels (to_word w) ≡ 1) }
    ensures by_index { (addresses : List ℕ) → registers.new ≡ (plain_effect (plain_is p) (to_word w) (awake_list awake) (store_of registers.old flags addresses)).registers }
    ensures by_index_2 { (addresses : List ℕ) → (result.flag0 ≡ (plain_effect (plain_is p) (to_word w) (awake_list awake) (store_of registers.old flags addresses)).flag0)
        × (result.flag1 ≡ (plain_effect (plain_is p) (to_word w) (awake_list awake) (store_of registers.old flags addresses)).flag1) }
{
    let quarter = qtr_ctrl(w);
    let predicate = predicate_of(w, flags.wide());
    let enable = enable_of(p, w, awake, predicate);
    let v = result_of(p, w, quarter_mask(predicate, quarter), registers);
    store(w, quarter_mask(enable, quarter), registers, v);
    flags_of_one(p, w, flags, enable, v)
}
