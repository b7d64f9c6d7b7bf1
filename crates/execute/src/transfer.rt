// mov where an operand is a0.
ghost use Rattle.std.specs.Prelude.{not, ◌||◌, ◌≡◌, ℕ, ◌<◌, length};
ghost use Rattle.paper.specs.Limits.{address_bytes};
ghost use Rattle.paper.specs.Word.{src0, dst_is_a0, src_is_a0};
ghost use Rattle.paper.specs.Operation.{mov};
ghost use Rattle.paper.specs.Effect.{file_in, plain_effect};
ghost use Rattle.words.specs.Words.{to_word};
ghost use Rattle.lanes.specs.Masks.{awake_list};
ghost use Rattle.execute.specs.Stores.{store_of};
ghost use Rattle.execute.specs.Readable.{Counting, Writable};
ghost use Rattle.execute.specs.Results.{Makes};
ghost use Rattle.execute.specs.Effects.{written_into};

use crate::clamp::clamp_all;
use crate::counts::channels;
use crate::destination::write_by_element;
use crate::enable::{enable_of, predicate_of};
use lanes::flags::Flags;
use lanes::mask::quarter_mask;
use operands::elements::operand_by_element;
use words::addresses::{dst_is_a0, src_is_a0};
use words::bytes::Word;
use words::fields::{Source, dst_type, qtr_ctrl, saturate};
use words::limits::REGISTER_BYTES;
use words::operation::Plain;

// The destination or the first source is a0.
pub fn uses_a0(w: Word) -> bool
    ensures { result ≡ (dst_is_a0 (to_word w) || src_is_a0 src0 (to_word w)) }
{
    dst_is_a0(w) || src_is_a0(Source::First, w)
}

// What the channels of a mov make: a0 is read, or registers.
fn moved(
    w: Word,
    flags: Flags<u64>,
    registers: &[u8; REGISTER_BYTES],
    addresses: &[u8],
    made: &mut [u64; 16],
)
    requires { Counting mov (to_word w) × (length addresses.now ≡ address_bytes) }
    ensures { (predicate : ℕ) → Makes mov (to_word w) predicate (file_in (src_is_a0 src0 (to_word w)) (store_of registers.now flags addresses.now)) made.new }
{
    let n = channels(w);
    if src_is_a0(Source::First, w) {
        operand_by_element(w, n, addresses, made);
        clamp_all(saturate(w) == 1, dst_type(w), n, made);
    } else {
        operand_by_element(w, n, registers, made);
        clamp_all(saturate(w) == 1, dst_type(w), n, made);
    }
}

// Results stored in a0, or in registers.
fn write_either(
    w: Word,
    enable: u64,
    registers: &mut [u8; REGISTER_BYTES],
    addresses: &mut [u8],
    results: &[u64; 16],
)
    requires { Writable (to_word w) × (length addresses.old ≡ address_bytes) }
    ensures { (registers.new ≡ written_into (dst_is_a0 (to_word w)) (to_word w) enable registers.old results.now)
        × (addresses.new ≡ written_into (not (dst_is_a0 (to_word w))) (to_word w) enable addresses.old results.now) }
{
    if dst_is_a0(w) {
        write_by_element(w, enable, addresses, results)
    } else {
        write_by_element(w, enable, registers, results)
    }
}

// mov from registers, a0 or an immediate to registers, a0 or null. It changes no flag.
pub fn transfer(
    w: Word,
    awake: u64,
    flags: Flags<u64>,
    registers: &mut [u8; REGISTER_BYTES],
    addresses: &mut [u8],
)
    requires { Counting mov (to_word w) × (length addresses.old ≡ address_bytes) }
    ensures registers_after { (registers.new ≡ (plain_effect mov (to_word w) (awake_list awake) (store_of registers.old flags addresses.old)).registers)
        × (addresses.new ≡ (plain_effect mov (to_word w) (awake_list awake) (store_of registers.old flags addresses.old)).addresses) }
    ensures flag0_value { (flags.flag0 ≡ (plain_effect mov (to_word w) (awake_list awake) (store_of registers.old flags addresses.old)).flag0)
        × (flags.flag1 ≡ (plain_effect mov (to_word w) (awake_list awake) (store_of registers.old flags addresses.old)).flag1) }
{
    let quarter = qtr_ctrl(w);
    let predicate = predicate_of(w, flags);
    let enable = enable_of(Plain::Mov, w, awake, predicate);
    let mut made = [0u64; 16];
    moved(w, flags, registers, addresses, &mut made);
    write_either(
        w,
        quarter_mask(enable, quarter),
        registers,
        addresses,
        &made,
    );
}
