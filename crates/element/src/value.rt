// Types, how an element's bit pattern becomes a number, and the numbers that a type holds.
ghost use Rattle.std.specs.Prelude.{◌≡◌, cond, ltb, ◌+◌, ◌-◌, ◌^◌, ◌<◌};
ghost use Rattle.paper.specs.Value.{width, value, clamp_to};
ghost use Rattle.laws.specs.Values.{IsWhole};
ghost use Rattle.element.specs.Biased.{ex, Near, sign_bit};

use words::types::width_of;

// What stands for 0.
pub const BASE: u64 = 1 << 63;

// The pattern of a type that has every bit set.
fn ones(kind: u64) -> u64
    requires { IsWhole kind }
    ensures { result ≡ 2 ^ width kind - 1 }
{
    (1 << width_of(kind)) - 1
}

// The bit of a type's patterns that says that a value is negative; 0 where the type has none.
pub(crate) fn sign(kind: u64) -> u64
    requires { IsWhole kind }
    ensures { result ≡ sign_bit kind }
{
    if kind % 2 == 1 { ones(kind) / 2 + 1 } else { 0 }
}

// The value of a pattern.
pub fn load(kind: u64, pattern: u64) -> u64
    requires { IsWhole kind × (pattern < 2 ^ width kind) }
    ensures { (ex result ≡ value kind pattern) × Near (width kind) result }
{
    let s = sign(kind);
    (pattern ^ s) + (BASE - s)
}

// v, or the end of the range that it lies beyond.
// (std's `clamp` asks that low be no more than high; this is said of any two.)
fn between(v: u64, low: u64, high: u64) -> u64
    ensures { result ≡ cond (ltb v low) low (cond (ltb high v) high v) }
{
    if v < low {
        low
    } else if high < v {
        high
    } else {
        v
    }
}

// The value of the type that is nearest to v.
pub fn clamp(kind: u64, v: u64) -> u64
    requires { IsWhole kind }
    ensures { ex result ≡ clamp_to kind (ex v) }
{
    let s = sign(kind);
    let most = ones(kind);
    between(v, BASE - s, BASE + (most - s))
}
