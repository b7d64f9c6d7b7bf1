// Floats as operands.
ghost use Rattle.std.specs.Prelude.{◌≡◌};
ghost use Rattle.paper.specs.Region.{src_is_vector};
ghost use Rattle.paper.specs.Legal.{dst_is_float, src_is_float};
ghost use Rattle.words.specs.Words.{to_word, source_is};

use crate::bytes::Word;
use crate::fields::{Source, dst_type, is_immediate, src_type};

// The destination is of type f.
pub fn dst_is_float(w: Word) -> bool
    ensures { result ≡ dst_is_float (to_word w) }
{
    dst_type(w) == 7
}

// The source is an immediate of four restricted floats.
pub fn src_is_vector(x: Source, w: Word) -> bool
    ensures { result ≡ src_is_vector (source_is x) (to_word w) }
{
    is_immediate(x, w) && src_type(x, w) == 5
}

// The source is of type f, or has four restricted floats.
pub fn src_is_float(x: Source, w: Word) -> bool
    ensures { result ≡ src_is_float (to_word w) (source_is x) }
{
    src_type(x, w) == 7 || src_is_vector(x, w)
}
