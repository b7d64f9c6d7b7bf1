// The long word that a short word stands for.
// Fields of a word's half are taken and put by powers of 2, each in its line of a sum, as the rows of `assemble` are: `words::fields::part` only takes, and a line would then tell its two places in two spellings.
ghost use Rattle.std.specs.Prelude.{◌≡◌, ◌<◌, ◌^◌};
ghost use Rattle.paper.specs.Rows.{assemble};
ghost use Rattle.paper.specs.Dictionary.{dictionary_of};
ghost use Rattle.paper.specs.Expand.{extended, low_rows, top_rows, high_rows, expand};
ghost use Rattle.words.specs.Words.{to_word};

use crate::dictionary::number;
use words::bytes::Word;
use words::fields::form_of;
use words::limits::DICTIONARY_BYTES;

// Bits 63:0: c, t and b are the short word's control, datatype and subregister numbers.
fn low_bits(s: u64, c: u64, t: u64, b: u64) -> u64
    ensures { result ≡ assemble (low_rows s c t b) }
{
    s % 0x80
        + c % 0x1_0000 * 0x100
        + s / 0x100_0000 % 16 * 0x100_0000
        + s / 0x80_0000 % 2 * 0x1000_0000
        + s / 0x80 % 2 * 0x4000_0000
        + c / 0x1_0000 % 2 * 0x8000_0000
        + t % 0x8000 * 0x1_0000_0000
        + b % 0x20 * 0x1_0000_0000_0000
        + s / 0x100_0000_0000 % 0x100 * 0x20_0000_0000_0000
        + t / 0x8000 % 8 * 0x2000_0000_0000_0000
}

// A 13-bit number, sign-extended to 32 bits.
fn sign_extended(v: u64) -> u64
    requires { v < 8192 }
    ensures { (result ≡ extended v) × (result < 2 ^ 32) }
{
    if v < 4096 {
        return v;
    }
    v + 0xffff_e000
}

// Bits 127:96: x is the second source number.
fn top_bits(immediate: bool, s: u64, b: u64, x: u64) -> u64
    ensures { (result ≡ assemble (top_rows immediate s b x)) × (result < 2 ^ 32) }
{
    if immediate {
        return sign_extended(s / 0x8_0000_0000 % 32 * 256 + s / 0x100_0000_0000_0000 % 256);
    }
    b / 0x400 % 32 + s / 0x100_0000_0000_0000 % 256 * 0x20 + x % 0x1000 * 0x2000
}

// Bits 127:64: a is the first source number.
fn high_bits(immediate: bool, s: u64, b: u64, a: u64, x: u64) -> u64
    ensures { result ≡ assemble (high_rows immediate s b a x) }
{
    b / 0x20 % 32
        + s / 0x1_0000_0000_0000 % 256 * 0x20
        + a % 0x1000 * 0x2000
        + s / 0x1000_0000 % 2 * 0x200_0000
        + top_bits(immediate, s, b, x) * 0x1_0000_0000
}

// The long word that short word s stands for.
pub fn expand(dictionary: &[u8; DICTIONARY_BYTES], s: u64) -> Word
    ensures { to_word result ≡ expand (dictionary_of dictionary.now) s }
{
    let c = number(dictionary, (s / 0x100 % 32) as usize);
    let t = number(dictionary, (32 + s / 0x2000 % 32) as usize);
    let b = number(dictionary, (64 + s / 0x4_0000 % 32) as usize);
    let a = number(dictionary, (96 + s / 0x4000_0000 % 32) as usize);
    let x = number(dictionary, (96 + s / 0x8_0000_0000 % 32) as usize);
    let lo = low_bits(s, c, t, b);
    let hi = high_bits(form_of(lo), s, b, a, x);
    Word { lo, hi }
}
