// What the channels of an instruction's sources read: immediates, or elements of the registers; modified.
ghost use Rattle.std.specs.Prelude.{false, ◌≡◌, length};
ghost use Rattle.paper.specs.Word.{src_is_a0};
ghost use Rattle.paper.specs.Region.{channels};
ghost use Rattle.paper.specs.Legal.{bytes_in};
ghost use Rattle.words.specs.Words.{to_word};
ghost use Rattle.operands.specs.Source.{source_of};
ghost use Rattle.operands.specs.Sources.{Readable, OperandRead};

use crate::gather::gather;
use crate::modify::modify_all;
use crate::source::source_of;
use crate::spread::spread;
use element::value::load;
use words::bytes::Word;
use words::fields::{src_modifier, src_type};
use words::operand::{Operand, operand_of};

// What the channels of a source read. Which source it is is known when this is compiled, so that its fields are taken from known bits.
pub fn numbers_of<const SECOND: bool>(w: Word, n: usize, registers: &[u8], values: &mut [u64; 16])
    requires { Readable (source_of SECOND) (to_word w) × (n ≡ channels (to_word w)) × (length registers.now ≡ bytes_in (src_is_a0 (source_of SECOND) (to_word w))) × (src_is_a0 (source_of SECOND) (to_word w) ≡ false) }
    ensures { OperandRead (to_word w) registers.now (source_of SECOND) n values.old values.new }
{
    let x = source_of::<SECOND>();
    let kind = src_type(x, w);
    match operand_of(false, false, x, w) {
        Operand::Fixed(pattern) => spread(load(kind, pattern), n, values),
        Operand::Vector(_) => {}
        Operand::Direct(r) => {
            gather(
                r.origin, r.vert, r.code, r.horz, r.size, kind, n, registers, values,
            );
            modify_all(src_modifier(x, w), n, values);
        }
    }
}
