// Numbers as bytes, passed on, and a long word as two halves.
ghost use Rattle.std.specs.Prelude.{◌≡◌, ◌+◌, ◌≤◌, length};
ghost use Rattle.paper.specs.Bits.{number_at, put_at};
ghost use Rattle.words.specs.Words.{to_word};

pub use numbers::{read2, read4, read8, write};

// A long word: its bits 63:0 and its bits 127:64.
#[derive(Clone, Copy, Debug, PartialEq, Eq)]
pub struct Word {
    pub lo: u64,
    pub hi: u64,
}

// The long word of the sixteen bytes from `from` on.
pub fn read16(bytes: &[u8], from: usize) -> Word
    requires { from + 16 ≤ length bytes.now }
    ensures { to_word result ≡ number_at bytes.now from 16 }
{
    let middle = from + 8;
    let lo = read8(bytes, from);
    let hi = read8(bytes, middle);
    Word { lo, hi }
}

// Stores the sixteen bytes of `w` from `from` on.
pub fn write16(out: &mut [u8], from: usize, w: Word)
    requires { from + 16 ≤ length out.old }
    ensures { out.new ≡ put_at out.old from 16 (to_word w) }
{
    let middle = from + 8;
    write::<8>(out, from, w.lo);
    write::<8>(out, middle, w.hi);
}
