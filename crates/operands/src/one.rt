// What one channel of an instruction's sources reads, without an array.
ghost use Rattle.std.specs.Prelude.{false, ◌≡◌, length};
ghost use Rattle.paper.specs.Word.{src_is_a0};
ghost use Rattle.paper.specs.Legal.{bytes_in};
ghost use Rattle.words.specs.Words.{to_word};
ghost use Rattle.operands.specs.Sources.{Readable, OperandRead};
ghost use Rattle.operands.specs.Single.{alone, none};
ghost use Rattle.operands.specs.Source.{source_of};

use crate::read::read_as;
use crate::source::source_of;
use element::modifier::modify;
use element::value::load;
use words::bytes::Word;
use words::fields::{src_modifier, src_type};
use words::operand::{Operand, operand_of};

// What the first channel of a source reads. Which source it is is known when this is compiled, so that its fields are taken from known bits.
pub fn number_of<const SECOND: bool>(w: Word, registers: &[u8]) -> u64
    requires { Readable (source_of SECOND) (to_word w) × (length registers.now ≡ bytes_in (src_is_a0 (source_of SECOND) (to_word w))) × (src_is_a0 (source_of SECOND) (to_word w) ≡ false) }
    ensures { OperandRead (to_word w) registers.now (source_of SECOND) 1 none (alone result) }
{
    let x = source_of::<SECOND>();
    let kind = src_type(x, w);
    match operand_of(false, false, x, w) {
        Operand::Fixed(pattern) => load(kind, pattern),
        Operand::Vector(four) => four,
        Operand::Direct(r) => {
            let v = read_as(registers, r.origin, kind, r.size);
            modify(src_modifier(x, w), v)
        }
    }
}
