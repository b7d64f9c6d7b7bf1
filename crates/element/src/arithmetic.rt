// Sums, products and averages.
ghost use Rattle.std.specs.Prelude.{◌≡◌, ◌+ℤ◌, ◌*ℤ◌};
ghost use Rattle.paper.specs.Element.{average};
ghost use Rattle.element.specs.Biased.{ex, Near};

use super::value::BASE;

// Half of what stands for 0.
const HALF_BASE: u64 = BASE / 2;

// The sum.
pub(crate) fn add(a: u64, b: u64) -> u64
    requires { Near 32 a × Near 32 b }
    ensures { ex result ≡ ex a +ℤ ex b }
{
    (a - HALF_BASE) + (b - HALF_BASE)
}

// The average, rounded down after 1 is added to the sum.
pub(crate) fn average(a: u64, b: u64) -> u64
    requires { Near 32 a × Near 32 b }
    ensures { ex result ≡ average (ex a) (ex b) }
{
    ((a - HALF_BASE) + (b - HALF_BASE) + 1) / 2 + HALF_BASE
}

// The product of words or bytes.
pub(crate) fn multiply(a: u64, b: u64) -> u64
    requires { Near 16 a × Near 16 b }
    ensures { ex result ≡ ex a *ℤ ex b }
{
    let x = a - (BASE - 65536);
    let y = b - (BASE - 65536);
    (x * y + (BASE + 4294967296)) - 65536 * (x + y)
}
