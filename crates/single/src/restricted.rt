// Restricted floats: a sign, 3 exponent bits biased by 3 and 4 fraction bits in a byte, of which 0x00 and 0x80 are zeros.
ghost use Rattle.std.specs.Prelude.{◌≡◌, ◌*◌};
ghost use Rattle.paper.specs.Bits.{bits};
ghost use Rattle.paper.specs.Restricted.{restricted_float, vector_float};

use crate::entries::PATTERNS;

// The pattern of one byte's float.
pub fn restricted_pattern(b: u8) -> u32
    ensures { result ≡ restricted_float b }
{
    PATTERNS[usize::from(b)]
}

// The byte that a channel reads of an immediate's four; there is none past the fourth.
fn byte_of(immediate: u32, channel: u64) -> u8
    ensures { result ≡ bits immediate (8 * channel) 8 }
{
    match channel {
        0 => (immediate % 256) as u8,
        1 => (immediate / 256 % 256) as u8,
        2 => (immediate / 65536 % 256) as u8,
        3 => (immediate / 16777216 % 256) as u8,
        _ => 0,
    }
}

// The pattern that a channel reads there.
pub fn vector_pattern(immediate: u32, channel: u64) -> u32
    ensures { result ≡ vector_float immediate channel }
{
    restricted_pattern(byte_of(immediate, channel))
}
