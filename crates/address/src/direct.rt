// A word with one operand named directly: its register and subregister are those of a byte, and its AddrMode is 0.
ghost use Rattle.std.specs.Prelude.{◌≡◌, ◌+◌, ◌<◌, ◌≤◌, ◌^◌};
ghost use Rattle.paper.specs.Bits.{put};
ghost use Rattle.paper.specs.Word.{shift_of};
ghost use Rattle.paper.specs.Address.{named_directly};
ghost use Rattle.words.specs.Words.{to_word, source_is};

use words::bytes::Word;
use words::fields::{Source, part};

// `x` with the number `v` in its n bits from bit k on.
fn with_part(x: u64, k: u32, n: u32, v: u64) -> u64
    requires { (k + n ≤ 64) × (k < 64) × (n < 64) × (v < 2 ^ n) }
    ensures { result ≡ put x k n v }
{
    let above = (x >> k >> n) << n;
    part(x, 0, k) + ((v + above) << k)
}

// A half of a word whose operand, from bit k of it on, is named directly by `byte`.
fn named_in(half: u64, k: u32, byte: u64) -> u64
    requires { (k ≤ 48) × (byte < 4096) }
    ensures { result ≡ named_directly k byte half }
{
    with_part(with_part(half, k, 13, byte), k + 15, 1, 0)
}

// The word whose destination is named directly by `byte`.
pub fn dst_named(w: Word, byte: u64) -> Word
    requires { byte < 4096 }
    ensures { to_word result ≡ named_directly 48 byte (to_word w) }
{
    Word {
        lo: named_in(w.lo, 48, byte),
        hi: w.hi,
    }
}

// Where a source's register and subregister begin in the high half.
fn shift_of(x: Source) -> u32
    ensures { (result ≡ shift_of (source_is x)) × (result ≤ 32) }
{
    match x {
        Source::First => 0,
        Source::Second => 32,
    }
}

// The word whose source is named directly by `byte`.
pub fn src_named(x: Source, w: Word, byte: u64) -> Word
    requires { byte < 4096 }
    ensures { to_word result ≡ named_directly (64 + shift_of (source_is x)) byte (to_word w) }
{
    Word {
        lo: w.lo,
        hi: named_in(w.hi, shift_of(x), byte),
    }
}
