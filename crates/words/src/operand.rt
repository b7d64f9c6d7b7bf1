// What a source names: an immediate, four restricted floats, or a region of the registers.
ghost use Rattle.std.specs.Prelude.{false, ◌&&◌, ◌≡◌, eqb};
ghost use Rattle.paper.specs.Value.{type_vf};
ghost use Rattle.paper.specs.Word.{src_is_a0, src_type};
ghost use Rattle.paper.specs.Region.{src_is_vector, operand_of};
ghost use Rattle.words.specs.Words.{to_word, source_is};
ghost use Rattle.words.specs.Operands.{operand_is, Bounded};

use crate::bytes::Word;
use crate::fields::{Source, high, is_immediate, src_type};
use crate::region::{Region, src_region};
use crate::types::size_of;

// An immediate's pattern, as many of its low bits as its type has; the 32 bits of four restricted floats; or where the elements lie.
#[derive(Clone, Copy)]
pub enum Operand {
    Fixed(u64),
    Vector(u64),
    Direct(Region),
}

// The type code of four restricted floats, which only an immediate may be.
const VECTOR: u64 = 5;

// An immediate's type is theirs, where this is asked for.
fn is_vector(floats: bool, kind: u64) -> bool
    ensures { result ≡ (floats && eqb kind type_vf) }
{
    floats && kind == VECTOR
}

// What a source of a word names; whether it may be four restricted floats is told, and whether it is a0.
pub fn operand_of(floats: bool, a0: bool, x: Source, w: Word) -> Operand
    requires { (floats ≡ false → src_is_vector (source_is x) (to_word w) ≡ false) × (a0 ≡ src_is_a0 (source_is x) (to_word w)) }
    ensures { (operand_is result ≡ operand_of (source_is x) (to_word w)) × Bounded (src_type (source_is x) (to_word w)) result }
{
    if is_immediate(x, w) {
        let kind = src_type(x, w);
        if is_vector(floats, kind) {
            return Operand::Vector(high(w, 32, 32));
        }
        let bits = 8 * size_of(kind) as u32;
        return Operand::Fixed(high(w, 32, bits));
    }
    Operand::Direct(src_region(a0, x, w))
}
