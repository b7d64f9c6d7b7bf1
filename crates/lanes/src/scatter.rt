// The results of all channels stored, where they are enabled.
ghost use Rattle.std.specs.Prelude.{◌≡◌, true, cond, ℕ, ◌+◌, ◌*◌, ◌<◌, ◌≤◌, length, get_or};
ghost use Rattle.paper.specs.Bits.{bit, put_at};
ghost use Rattle.paper.specs.Effect.{scattered};
ghost use Rattle.lanes.specs.Sizes.{Size};

use crate::load::read_element;
use crate::mask::bit;
use crate::store::write_element;

// Channel k's value stored where the mask enables it. A disabled channel's bytes are not touched.
pub fn store_channel(registers: &mut [u8], from: usize, size: usize, enable: u64, k: usize, v: u64)
    requires { Size size × (k < 16) × (from + size ≤ length registers.old) }
    ensures { registers.new ≡ cond (bit enable k) (put_at registers.old from size v) registers.old }
{
    if bit(enable, k as u64) {
        write_element(registers, from, size, v);
    }
}

// Channel k's value stored where the mask enables it, without a branch: a disabled channel's bytes are stored as they are.
pub(crate) fn blend_channel(
    registers: &mut [u8],
    from: usize,
    size: usize,
    enable: u64,
    k: usize,
    v: u64,
)
    requires { Size size × (k < 16) × (from + size ≤ length registers.old) }
    ensures { registers.new ≡ cond (bit enable k) (put_at registers.old from size v) registers.old }
{
    let old = read_element(registers, from, size);
    let on = bit(enable, k as u64);
    write_element(registers, from, size, if on { v } else { old });
}

// The n channels' values stored `stride` elements apart, each where its bit of the mask is 1.
pub fn store_each(
    registers: &mut [u8],
    origin: usize,
    stride: usize,
    size: usize,
    n: usize,
    enable: u64,
    values: &[u64; 16],
)
    requires size { Size size × (n ≤ 16) }
    requires by_index { (k : ℕ) → k < n → origin + k * stride * size + size ≤ length registers.old }
    ensures { registers.new
        ≡ scattered registers.old (λ k. origin + k * stride * size) size (bit enable) (λ k. get_or values.now k 0) n }
{
    for k in 0..n {
        let v = values[k];
        blend_channel(registers, origin + k * stride * size, size, enable, k, v);
    }
}

// Elements of `SIZE` bytes, `stride` elements apart.
fn store<const SIZE: usize>(
    registers: &mut [u8],
    origin: usize,
    stride: usize,
    n: usize,
    enable: u64,
    values: &[u64; 16],
)
    requires size { Size SIZE × (n ≤ 16) }
    requires by_index { (k : ℕ) → k < n → origin + k * stride * SIZE + SIZE ≤ length registers.old }
    ensures { registers.new
        ≡ scattered registers.old (λ k. origin + k * stride * SIZE) SIZE (bit enable) (λ k. get_or values.now k 0) n }
{
    store_each(registers, origin, stride, SIZE, n, enable, values)
}

// Elements of `SIZE` bytes side by side, all of them: a mask that has every bit enables them.
fn lay<const SIZE: usize>(registers: &mut [u8], origin: usize, n: usize, values: &[u64; 16])
    requires size { Size SIZE × (n ≤ 16) }
    requires by_index { (k : ℕ) → k < n → origin + k * 1 * SIZE + SIZE ≤ length registers.old }
    ensures { registers.new
        ≡ scattered registers.old (λ k. origin + k * 1 * SIZE) SIZE (bit 18446744073709551615) (λ k. get_or values.now k 0) n }
{
    store_each(registers, origin, 1, SIZE, n, u64::MAX, values)
}

// Elements of a size, `stride` elements apart.
fn store_sized(
    registers: &mut [u8],
    origin: usize,
    stride: usize,
    size: usize,
    n: usize,
    enable: u64,
    values: &[u64; 16],
)
    requires size { Size size × (n ≤ 16) }
    requires by_index { (k : ℕ) → k < n → origin + k * stride * size + size ≤ length registers.old }
    ensures { registers.new
        ≡ scattered registers.old (λ k. origin + k * stride * size) size (bit enable) (λ k. get_or values.now k 0) n }
{
    match size {
        4 => store::<4>(registers, origin, stride, n, enable, values),
        2 => store::<2>(registers, origin, stride, n, enable, values),
        _ => store::<1>(registers, origin, stride, n, enable, values),
    }
}

// Elements of a size side by side, all of them.
fn lay_sized(registers: &mut [u8], origin: usize, size: usize, n: usize, values: &[u64; 16])
    requires size { Size size × (n ≤ 16) }
    requires by_index { (k : ℕ) → k < n → origin + k * 1 * size + size ≤ length registers.old }
    ensures { registers.new
        ≡ scattered registers.old (λ k. origin + k * 1 * size) size (bit 18446744073709551615) (λ k. get_or values.now k 0) n }
{
    match size {
        4 => lay::<4>(registers, origin, n, values),
        2 => lay::<2>(registers, origin, n, values),
        _ => lay::<1>(registers, origin, n, values),
    }
}

// The mask enables each of the n first channels.
fn all_on(enable: u64, n: usize) -> bool
    requires { n ≤ 16 }
    ensures { result ≡ true → (k : ℕ) → k < n → bit enable k ≡ true }
{
    enable % (1 << n) == (1 << n) - 1
}

// Elements side by side, all of which are enabled.
pub(crate) fn is_whole(stride: usize, enable: u64, n: usize) -> bool
    requires { n ≤ 16 }
    ensures { result ≡ true → (stride ≡ 1) × ((k : ℕ) → k < n → bit enable k ≡ true) }
{
    stride == 1 && all_on(enable, n)
}

// The n channels' values stored `stride` elements apart, each where its bit of the mask is 1: each size has loops of its own, and one for
// elements side by side, all of which are enabled.
pub fn scatter(
    registers: &mut [u8],
    origin: usize,
    stride: usize,
    size: usize,
    n: usize,
    enable: u64,
    values: &[u64; 16],
)
    requires size { Size size × (n ≤ 16) }
    requires by_index { (k : ℕ) → k < n → origin + k * stride * size + size ≤ length registers.old }
    ensures { registers.new
        ≡ scattered registers.old (λ k. origin + k * stride * size) size (bit enable) (λ k. get_or values.now k 0) n }
{
    if is_whole(stride, enable, n) {
        lay_sized(registers, origin, size, n, values)
    } else {
        store_sized(registers, origin, stride, size, n, enable, values)
    }
}
