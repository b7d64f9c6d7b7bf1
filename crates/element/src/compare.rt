// Comparison, and the number that stands for its outcome.
ghost use Rattle.std.specs.Prelude.{◌≡◌, ◌-ℤ◌};
ghost use Rattle.paper.specs.Element.{compares, one_if};
ghost use Rattle.element.specs.Biased.{ex};

use super::value::BASE;

// What a condition code says of a - b against 0: 1 z, 2 nz, 3 g, 4 ge, 5 l, 6 le.
// It is no instance of one function with `single::operation::compare_pattern`: this is said of the difference of two numbers, that of the floats' order, in which a NaN is neither less, equal nor greater.
pub fn compare(code: u64, a: u64, b: u64) -> bool
    ensures { result ≡ compares code (ex a -ℤ ex b) }
{
    match code {
        1 => a == b,
        2 => a != b,
        3 => b < a,
        4 => b <= a,
        5 => a < b,
        _ => a <= b,
    }
}

// 1 for what is so, else 0.
pub fn one_if(outcome: bool) -> u64
    ensures { ex result ≡ one_if outcome }
{
    if outcome { BASE + 1 } else { BASE }
}
