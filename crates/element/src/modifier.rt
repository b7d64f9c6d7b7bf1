// Source modifiers.
ghost use Rattle.std.specs.Prelude.{◌≡◌, pos, neg_ℤ, nat_abs};
ghost use Rattle.paper.specs.Value.{modified};
ghost use Rattle.element.specs.Biased.{ex, Near, Keeps};

use super::value::BASE;

// The number less than 0 by as much as v is greater.
pub(crate) fn negated(v: u64) -> u64
    requires { Near 32 v }
    ensures { (ex result ≡ neg_ℤ (ex v)) × Keeps v result }
{
    (18446744073709551615 - v) + 1
}

// The magnitude of v.
pub(crate) fn absolute(v: u64) -> u64
    requires { Near 32 v }
    ensures { (ex result ≡ pos (nat_abs (ex v))) × Keeps v result }
{
    if v < BASE { negated(v) } else { v }
}

// v under a source modifier: 1 absolute, 2 negated, 3 negated absolute.
pub fn modify(modifier: u64, v: u64) -> u64
    requires { Near 32 v }
    ensures { (ex result ≡ modified modifier (ex v)) × Keeps v result }
{
    match modifier {
        1 => absolute(v),
        2 => negated(v),
        3 => negated(absolute(v)),
        _ => v,
    }
}
