// What the channels of a source of floats read, as 32-bit patterns; modified.
// Its loops are those of whole numbers (`line`, `lines`, `gather`, `spread`, `modify_each`, `modify_all`) over arrays of half the size, by which a step takes two fifths of the time (docs/DECISIONS.md, 195).
// They are no instances of one generic function: `Mapped` looks a channel up by `get_or .. 0`, and a type parameter's values have no 0. One function would need a second `Mapped` for any type, a trait with
// the number that a value is, and a law for each of the two widths that leads back: longer than the loops, whose bodies are a line or two.
ghost use Rattle.std.specs.Prelude.{false, ◌≡◌, ℕ, ◌+◌, ◌*◌, ◌^◌, ◌≤◌, ◌<◌, length};
ghost use Rattle.paper.specs.Bits.{number_at};
ghost use Rattle.paper.specs.Word.{src_is_a0};
ghost use Rattle.paper.specs.Legal.{bytes_in};
ghost use Rattle.paper.specs.Region.{channels, element_at};
ghost use Rattle.paper.specs.Restricted.{vector_float};
ghost use Rattle.paper.specs.Single.{sign_modified};
ghost use Rattle.lanes.specs.Mapped.{Mapped};
ghost use Rattle.words.specs.Words.{to_word};
ghost use Rattle.words.specs.Regions.{region_is, Small};
ghost use Rattle.operands.specs.Shapes.{region_from};
ghost use Rattle.operands.specs.Source.{source_of};
ghost use Rattle.operands.specs.Floats.{FloatsIn, FloatsRead, FloatsAt};

use crate::gather::{is_beside, is_single};
use crate::source::source_of;
use numbers::read4;
use single::restricted::vector_pattern;
use single::sign::modify_pattern;
use words::bytes::Word;
use words::fields::src_modifier;
use words::operand::{Operand, operand_of};
use words::region::{Region, element_at};

// ---- elements, by the shape of their region

// The n first elements of four bytes from byte `from` on.
fn float_line(registers: &[u8], from: usize, n: usize, patterns: &mut [u32; 16])
    requires { (n ≤ 16) × ((k : ℕ) → k < n → from + k * 4 + 4 ≤ length registers.now) }
    ensures { FloatsAt registers.now (λ k. from + k * 4) n patterns.old patterns.new }
{
    for k in 0..n {
        let at = from + k * 4;
        patterns[k] = read4(registers, at) as u32;
    }
}

// One pattern for each of the n first channels.
fn float_spread(pattern: u32, n: usize, patterns: &mut [u32; 16])
    requires { n ≤ 16 }
    ensures { Mapped (λ k old new. new ≡ pattern) n patterns.old patterns.new }
{
    for k in 0..n {
        patterns[k] = pattern;
    }
}

// The elements of the n first channels of a region.
fn float_lines(registers: &[u8], r: Region, n: usize, patterns: &mut [u32; 16])
    requires { Small r × (n ≤ 16) × ((k : ℕ) → k < n → element_at (region_is r) k + 4 ≤ length registers.now) }
    ensures { FloatsAt registers.now (element_at (region_is r)) n patterns.old patterns.new }
{
    for k in 0..n {
        let from = element_at(r, k);
        patterns[k] = read4(registers, from) as u32;
    }
}

// The same, by the region's shape. It is handed over number by number, as to `gather`.
fn float_gather(
    origin: usize,
    vert: usize,
    code: usize,
    horz: usize,
    n: usize,
    registers: &[u8],
    patterns: &mut [u32; 16],
)
    requires small { Small (region_from origin vert code horz 4) × (0 < n) × (n ≤ 16) }
    requires by_index { (k : ℕ) → k < n → element_at (region_is (region_from origin vert code horz 4)) k + 4 ≤ length registers.now }
    ensures { FloatsAt registers.now (element_at (region_is (region_from origin vert code horz 4))) n patterns.old patterns.new }
{
    let r = Region {
        origin,
        vert,
        code,
        horz,
        size: 4,
    };
    if is_beside(r) {
        float_line(registers, origin, n, patterns)
    } else if is_single(r) {
        let pattern = read4(registers, origin) as u32;
        float_spread(pattern, n, patterns)
    } else {
        float_lines(registers, r, n, patterns)
    }
}

// ---- modifiers

// The patterns of the n first channels under a modifier.
fn sign_each(modifier: u64, n: usize, patterns: &mut [u32; 16])
    requires { n ≤ 16 }
    ensures { Mapped (λ k old new. (new ≡ sign_modified modifier old) × (old < 2 ^ 32 → new < 2 ^ 32)) n patterns.old patterns.new }
{
    for k in 0..n {
        let pattern = patterns[k];
        patterns[k] = modify_pattern(modifier, pattern);
    }
}

// The same; where there is no modifier nothing is done.
fn sign_all(modifier: u64, n: usize, patterns: &mut [u32; 16])
    requires { n ≤ 16 }
    ensures { Mapped (λ k old new. (new ≡ sign_modified modifier old) × (old < 2 ^ 32 → new < 2 ^ 32)) n patterns.old patterns.new }
{
    if modifier != 0 {
        sign_each(modifier, n, patterns);
    }
}

// ---- sources

// Each channel's own of four restricted floats.
fn float_vector(four: u32, n: usize, patterns: &mut [u32; 16])
    requires { n ≤ 16 }
    ensures { Mapped (λ k old new. (new ≡ vector_float four k) × (new < 2 ^ 32)) n patterns.old patterns.new }
{
    for k in 0..n {
        patterns[k] = vector_pattern(four, k as u64);
    }
}

// What the channels of a source read where it has floats, none of its elements being in a0. Which source it is is known when this is compiled, so that its fields are taken from known bits.
pub fn floats_of<const SECOND: bool>(w: Word, n: usize, registers: &[u8], patterns: &mut [u32; 16])
    requires { FloatsIn (source_of SECOND) (to_word w) × (n ≡ channels (to_word w)) × (length registers.now ≡ bytes_in (src_is_a0 (source_of SECOND) (to_word w))) × (src_is_a0 (source_of SECOND) (to_word w) ≡ false) }
    ensures { FloatsRead (to_word w) registers.now (source_of SECOND) n patterns.old patterns.new }
{
    let x = source_of::<SECOND>();
    match operand_of(true, false, x, w) {
        Operand::Fixed(pattern) => float_spread(pattern as u32, n, patterns),
        Operand::Vector(four) => float_vector(four as u32, n, patterns),
        Operand::Direct(r) => {
            float_gather(r.origin, r.vert, r.code, r.horz, n, registers, patterns);
            sign_all(src_modifier(x, w), n, patterns);
        }
    }
}
