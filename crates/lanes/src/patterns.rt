// Patterns of 32 bits stored for all channels, where they are enabled: what `scatter` does, from an array of half the size.
// The two are no instances of one generic function: `scattered` is the paper's, said of numbers, which a contract looks up by `get_or values.now k 0`. Of a type parameter's values it would take a trait
// with the number that each is, and a law for each of the two widths: longer than the loop, whose body is two lines.
ghost use Rattle.std.specs.Prelude.{◌≡◌, ℕ, ◌+◌, ◌*◌, ◌<◌, ◌≤◌, length, get_or};
ghost use Rattle.paper.specs.Bits.{bit};
ghost use Rattle.paper.specs.Effect.{scattered};

use crate::scatter::{blend_channel, is_whole};

// The n channels' patterns stored `stride` elements apart, each where its bit of the mask is 1.
fn each_pattern(
    registers: &mut [u8],
    origin: usize,
    stride: usize,
    n: usize,
    enable: u64,
    patterns: &[u32; 16],
)
    requires n_bound { n ≤ 16 }
    requires by_index { (k : ℕ) → k < n → origin + k * stride * 4 + 4 ≤ length registers.old }
    ensures { registers.new
        ≡ scattered registers.old (λ k. origin + k * stride * 4) 4 (bit enable) (λ k. get_or patterns.now k 0) n }
{
    for k in 0..n {
        let v = u64::from(patterns[k]);
        blend_channel(registers, origin + k * stride * 4, 4, enable, k, v);
    }
}

// Side by side, all of them.
fn all_patterns(registers: &mut [u8], origin: usize, n: usize, patterns: &[u32; 16])
    requires n_bound { n ≤ 16 }
    requires by_index { (k : ℕ) → k < n → origin + k * 1 * 4 + 4 ≤ length registers.old }
    ensures { registers.new
        ≡ scattered registers.old (λ k. origin + k * 1 * 4) 4 (bit 18446744073709551615) (λ k. get_or patterns.now k 0) n }
{
    each_pattern(registers, origin, 1, n, u64::MAX, patterns)
}

// The n channels' patterns stored `stride` elements apart, each where its bit of the mask is 1: those side by side, all of which are enabled, have a loop of their own.
pub fn scatter_patterns(
    registers: &mut [u8],
    origin: usize,
    stride: usize,
    n: usize,
    enable: u64,
    patterns: &[u32; 16],
)
    requires n_bound { n ≤ 16 }
    requires by_index { (k : ℕ) → k < n → origin + k * stride * 4 + 4 ≤ length registers.old }
    ensures { registers.new
        ≡ scattered registers.old (λ k. origin + k * stride * 4) 4 (bit enable) (λ k. get_or patterns.now k 0) n }
{
    if is_whole(stride, enable, n) {
        all_patterns(registers, origin, n, patterns)
    } else {
        each_pattern(registers, origin, stride, n, enable, patterns)
    }
}
