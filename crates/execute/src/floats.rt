// What an instruction on floats does to registers and flags: a path of its own, by patterns.
ghost use Rattle.std.specs.Prelude.{false, pos, List, [], ◌≡◌, ℕ, ◌≤◌, ◌<◌, length, get_or};
ghost use Rattle.paper.specs.Word.{dst_type, dst_is_a0};
ghost use Rattle.paper.specs.Value.{type_f};
ghost use Rattle.paper.specs.Element.{float_result};
ghost use Rattle.paper.specs.Legal.{bytes_in};
ghost use Rattle.paper.specs.Region.{channels};
ghost use Rattle.paper.specs.Enable.{chosen_flag};
ghost use Rattle.paper.specs.Effect.{plain_effect};
ghost use Rattle.words.specs.Words.{to_word};
ghost use Rattle.words.specs.Operations.{plain_is};
ghost use Rattle.lanes.specs.Masks.{awake_list};
ghost use Rattle.execute.specs.Stores.{store_of, FlagsOf};
ghost use Rattle.execute.specs.Readable.{Acting, Reckoning, Writable};
ghost use Rattle.execute.specs.Results.{Makes};
ghost use Rattle.execute.specs.Compared.{lowest_bits};
ghost use Rattle.execute.specs.Effects.{written, flag_made};
ghost use Rattle.execute.specs.Floats.{SecondFloats, Reckoned};

use crate::compare::compared;
use crate::counts::channels;
use crate::enable::{enable_of, predicate_of};
use lanes::flags::Flags;
use lanes::mask::quarter_mask;
use lanes::patterns::scatter_patterns;
use operands::floats::floats_of;
use single::operation::{add_pattern, compare_pattern, mul_pattern};
use words::bytes::Word;
use words::fields::{cond_modifier, is_null, qtr_ctrl};
use words::limits::REGISTER_BYTES;
use words::operation::Plain;
use words::region::dst_region;
use words::traits::{compares, reads_two};

// ---- operations on all channels

// The result of an operation on two floats: a comparison's is the whole number 1 or 0. mov copies, and of the others none is served on floats.
fn reckoned(p: Plain, condition: u64, x: u32, y: u32) -> u32
    ensures { pos result ≡ float_result (plain_is p) condition (pos x) (pos y) }
{
    match p {
        Plain::Cmp => u32::from(compare_pattern(condition, x, y)),
        Plain::Add => add_pattern(x, y),
        Plain::Mul => mul_pattern(x, y),
        _ => x,
    }
}

// The first patterns of the n first channels become the results.
fn reckon_each(p: Plain, condition: u64, n: usize, first: &mut [u32; 16], second: &[u32; 16])
    requires { n ≤ 16 }
    ensures { Reckoned (plain_is p) condition n first.old second.now first.new }
{
    for k in 0..n {
        first[k] = reckoned(p, condition, first[k], second[k]);
    }
}

// The results, by the operation: each that is served has a loop of its own. The others' are the first operands.
fn reckon_all(p: Plain, condition: u64, n: usize, first: &mut [u32; 16], second: &[u32; 16])
    requires { n ≤ 16 }
    ensures { Reckoned (plain_is p) condition n first.old second.now first.new }
{
    match p {
        Plain::Cmp => reckon_each(Plain::Cmp, condition, n, first, second),
        Plain::Add => reckon_each(Plain::Add, condition, n, first, second),
        Plain::Mul => reckon_each(Plain::Mul, condition, n, first, second),
        _ => (),
    }
}

// ---- results

// The second operands, where the operation reads them; else the zeros that were there.
fn float_second(
    p: Plain,
    w: Word,
    n: usize,
    registers: &[u8; REGISTER_BYTES],
    patterns: &mut [u32; 16],
)
    requires { Reckoning (plain_is p) (to_word w) × (n ≡ channels (to_word w)) }
    ensures { SecondFloats (plain_is p) (to_word w) registers.now n patterns.new }
{
    if reads_two(p) {
        floats_of::<true>(w, n, registers, patterns);
    }
}

// What the channels make: all sources are read first. A float's result is its pattern.
fn float_results(p: Plain, w: Word, registers: &[u8; REGISTER_BYTES], made: &mut [u32; 16])
    requires { Reckoning (plain_is p) (to_word w) }
    ensures { (predicate : ℕ) → Makes (plain_is p) (to_word w) predicate registers.now made.new }
{
    let n = channels(w);
    let mut other = [0u32; 16];
    floats_of::<false>(w, n, registers, made);
    float_second(p, w, n, registers, &mut other);
    reckon_all(p, cond_modifier(w), n, made, &other);
}

// ---- stores

// Results stored in the registers where the mask of the instruction's own channels says; a null destination stores nothing.
fn write_floats(w: Word, enable: u64, registers: &mut [u8], results: &[u32; 16])
    requires { Writable (to_word w) × (length registers.old ≡ bytes_in (dst_is_a0 (to_word w))) × (dst_is_a0 (to_word w) ≡ false) × (dst_type (to_word w) ≡ type_f) }
    ensures { registers.new ≡ written (to_word w) enable registers.old results.now }
{
    if is_null(w) {
        return;
    }
    let r = dst_region(false, w);
    scatter_patterns(registers, r.origin, r.vert, channels(w), enable, results);
}

// ---- flags

// The lowest bits of the n first results as a mask. It is no instance of one function with `compare::lowest_bits` for the reason that `operands::floats` gives: what is said of both (`lowest_bits`) is said
// of a list of numbers.
fn outcomes(results: &[u32; 16], n: usize) -> u64
    requires { n ≤ 16 }
    ensures { (result ≡ lowest_bits results.now n) × (result < 65536) }
{
    let mut mask = 0;
    for k in 0..n {
        mask += u64::from(results[k] % 2) << k;
    }
    mask
}

// The flags after an operation: cmp leaves what it found in the chosen one; the others change none.
fn float_flags(p: Plain, w: Word, flags: Flags<u16>, enable: u64, results: &[u32; 16]) -> Flags<u16>
    requires { Acting (plain_is p) (to_word w) }
    ensures { FlagsOf result (to_word w) (store_of [] flags []) (flag_made (plain_is p) (to_word w) (chosen_flag (to_word w) (store_of [] flags [])) enable results.now) }
{
    if compares(p) {
        compared(w, flags, enable, outcomes(results, channels(w)))
    } else {
        flags
    }
}

// ---- an instruction

// An instruction on floats, which has no operand in a0: a0 stays.
pub fn reckon(
    p: Plain,
    w: Word,
    awake: u64,
    flags: Flags<u16>,
    registers: &mut [u8; REGISTER_BYTES],
) -> Flags<u16>
    requires { Reckoning (plain_is p) (to_word w) }
    ensures by_index { (addresses : List ℕ) → (registers.new ≡ (plain_effect (plain_is p) (to_word w) (awake_list awake) (store_of registers.old flags addresses)).registers)
        × (addresses ≡ (plain_effect (plain_is p) (to_word w) (awake_list awake) (store_of registers.old flags addresses)).addresses) }
    ensures by_index_2 { (addresses : List ℕ) → (result.flag0 ≡ (plain_effect (plain_is p) (to_word w) (awake_list awake) (store_of registers.old flags addresses)).flag0)
        × (result.flag1 ≡ (plain_effect (plain_is p) (to_word w) (awake_list awake) (store_of registers.old flags addresses)).flag1) }
{
    let quarter = qtr_ctrl(w);
    let predicate = predicate_of(w, flags.wide());
    let enable = enable_of(p, w, awake, predicate);
    let mut made = [0u32; 16];
    float_results(p, w, registers, &mut made);
    write_floats(w, quarter_mask(enable, quarter), registers, &made);
    float_flags(p, w, flags, enable, &made)
}
