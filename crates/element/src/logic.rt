// Logic, which works on values modulo 2^32.
ghost use Rattle.std.specs.Prelude.{◌≡◌};
ghost use Rattle.std.specs.Int.Bits.{bit_and, bit_or, bit_xor};
ghost use Rattle.paper.specs.Element.{logic, complement};
ghost use Rattle.element.specs.Biased.{ex};

use super::value::BASE;

// Each of the 32 bits exchanged.
pub fn logic_not(a: u64) -> u64
    ensures { ex result ≡ complement (ex a) }
{
    BASE + (4294967295 - a % 4294967296)
}

// The bits that are set in both.
pub fn logic_and(a: u64, b: u64) -> u64
    ensures { ex result ≡ logic bit_and (ex a) (ex b) }
{
    BASE + ((a % 4294967296) & (b % 4294967296))
}

// The bits that are set in either.
pub fn logic_or(a: u64, b: u64) -> u64
    ensures { ex result ≡ logic bit_or (ex a) (ex b) }
{
    BASE + ((a % 4294967296) | (b % 4294967296))
}

// The bits that are set in one alone.
pub fn logic_xor(a: u64, b: u64) -> u64
    ensures { ex result ≡ logic bit_xor (ex a) (ex b) }
{
    BASE + ((a % 4294967296) ^ (b % 4294967296))
}
