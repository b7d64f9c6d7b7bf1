// Elements that lie side by side.
// A type and its elements' size are two numbers, with a clause that they fit: loops of one type have both as const parameters (`typed`), which a struct of them could not be.
ghost use Rattle.std.specs.Prelude.{◌≡◌, ℕ, ◌+◌, ◌*◌, ◌≤◌, ◌<◌, length, get_or};
ghost use Rattle.paper.specs.Bits.{number_at};
ghost use Rattle.paper.specs.Value.{size_of};
ghost use Rattle.laws.specs.Values.{IsWhole};
ghost use Rattle.lanes.specs.Mapped.{Mapped};
ghost use Rattle.operands.specs.Reads.{Reads, ElementsRead};

use crate::read::read_as;
use element::value::load;
use numbers::read2;

// The n first elements from byte `from` on, as numbers.
fn line(registers: &[u8], from: usize, kind: u64, size: usize, n: usize, values: &mut [u64; 16])
    requires size_value { (size ≡ size_of kind) × (n ≤ 16) × IsWhole kind }
    requires by_index { (k : ℕ) → k < n → from + k * size + size ≤ length registers.now }
    ensures { ElementsRead registers.now (λ k. from + k * size) kind size n values.old values.new }
{
    for k in 0..n {
        let at = from + k * size;
        values[k] = read_as(registers, at, kind, size);
    }
}

// Elements of one type: the compiler makes a loop for each.
fn typed<const KIND: u64, const SIZE: usize>(
    registers: &[u8],
    from: usize,
    n: usize,
    values: &mut [u64; 16],
)
    requires size_value { (SIZE ≡ size_of KIND) × (n ≤ 16) × IsWhole KIND }
    requires by_index { (k : ℕ) → k < n → from + k * SIZE + SIZE ≤ length registers.now }
    ensures { ElementsRead registers.now (λ k. from + k * SIZE) KIND SIZE n values.old values.new }
{
    line(registers, from, KIND, SIZE, n, values)
}

// The patterns of the n first words from byte `from` on.
// (Apart from `floats::float_line`, as that module says: an array of another width.)
fn word_patterns(registers: &[u8], from: usize, n: usize, patterns: &mut [u16; 16])
    requires n_bound { n ≤ 16 }
    requires by_index { (k : ℕ) → k < n → from + k * 2 + 2 ≤ length registers.now }
    ensures { Mapped (λ k old new. new ≡ number_at registers.now (from + k * 2) 2) n patterns.old patterns.new }
{
    for k in 0..n {
        let at = from + k * 2;
        patterns[k] = read2(registers, at) as u16;
    }
}

// The numbers that the n first patterns of type w mean.
fn word_values(patterns: &[u16; 16], n: usize, values: &mut [u64; 16])
    requires { n ≤ 16 }
    ensures { Mapped (λ k old new. Reads 3 (get_or patterns.now k 0) new) n values.old values.new }
{
    for k in 0..n {
        let pattern = u64::from(patterns[k]);
        values[k] = load(3, pattern);
    }
}

// Elements of type w. Patterns first and then what they mean: in one loop the compiler would take a word's bytes apart to give it its sign.
fn signed_words(registers: &[u8], from: usize, n: usize, values: &mut [u64; 16])
    requires n_bound { n ≤ 16 }
    requires by_index { (k : ℕ) → k < n → from + k * 2 + 2 ≤ length registers.now }
    ensures { ElementsRead registers.now (λ k. from + k * 2) 3 2 n values.old values.new }
{
    let mut patterns = [0u16; 16];
    word_patterns(registers, from, n, &mut patterns);
    word_values(&patterns, n, values);
}

// The n first elements from byte `from` on, as numbers: each type has a loop of its own.
pub(crate) fn beside(
    registers: &[u8],
    from: usize,
    kind: u64,
    size: usize,
    n: usize,
    values: &mut [u64; 16],
)
    requires size_value { (size ≡ size_of kind) × (n ≤ 16) × IsWhole kind }
    requires by_index { (k : ℕ) → k < n → from + k * size + size ≤ length registers.now }
    ensures { ElementsRead registers.now (λ k. from + k * size) kind size n values.old values.new }
{
    match kind {
        0 => typed::<0, 4>(registers, from, n, values),
        1 => typed::<1, 4>(registers, from, n, values),
        2 => typed::<2, 2>(registers, from, n, values),
        3 => signed_words(registers, from, n, values),
        4 => typed::<4, 1>(registers, from, n, values),
        _ => typed::<5, 1>(registers, from, n, values),
    }
}
