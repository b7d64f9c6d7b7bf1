// Words of which more is asked than of most: a0 has a part in them, or floats have.
ghost use Rattle.std.specs.Prelude.{false, ◌≡◌};
ghost use Rattle.words.specs.Words.{to_word};
ghost use Rattle.words.specs.Usual.{Direct, Whole, Usual};

use crate::addresses::{dst_is_a0, src_is_a0};
use crate::bytes::Word;
use crate::fields::Source;
use crate::floats::{dst_is_float, src_is_float};

// An operand may be by address: an AddrMode is 1, or what stands in its place in an immediate.
fn may_address(w: Word) -> bool
    ensures { result ≡ false → Direct (to_word w) }
{
    (w.lo >> 63) + (w.hi >> 15) % 2 + (w.hi >> 47) % 2 != 0
}

// An operand is a float, be it read or not. Most words are told by the highest bits of their types.
fn may_reckon(w: Word) -> bool
    ensures { result ≡ false → Whole (to_word w) }
{
    (w.lo >> 36) % 2 + (w.lo >> 41) % 2 + (w.lo >> 46) % 2 != 0
        && (dst_is_float(w) || src_is_float(Source::First, w) || src_is_float(Source::Second, w))
}

// An operand may be by address, or is a0 itself, or a float.
pub fn is_unusual(w: Word) -> bool
    ensures { result ≡ false → Usual (to_word w) }
{
    may_address(w)
        || dst_is_a0(w)
        || src_is_a0(Source::First, w)
        || src_is_a0(Source::Second, w)
        || may_reckon(w)
}
