// What the channels of src0 read in either file, element by element.
// A file is lent as a slice, its length a clause (`bytes_in`): the registers and a0, of which the same is said, have different ones. So it is in `execute::destination`.
ghost use Rattle.std.specs.Prelude.{◌≡◌, length};
ghost use Rattle.paper.specs.Word.{src0, src_is_a0};
ghost use Rattle.paper.specs.Region.{channels};
ghost use Rattle.paper.specs.Legal.{bytes_in};
ghost use Rattle.words.specs.Words.{to_word};
ghost use Rattle.operands.specs.Sources.{Readable, OperandRead};

use crate::modify::modify_all;
use crate::rows::lines;
use crate::spread::spread;
use element::value::load;
use words::addresses::src_is_a0;
use words::bytes::Word;
use words::fields::{Source, src_modifier, src_type};
use words::operand::{Operand, operand_of};

// What the channels of src0 read in the file that it stands in, a0 or the registers, which is lent.
pub fn operand_by_element(w: Word, n: usize, file: &[u8], values: &mut [u64; 16])
    requires { Readable src0 (to_word w) × (n ≡ channels (to_word w)) × (length file.now ≡ bytes_in (src_is_a0 src0 (to_word w))) }
    ensures { OperandRead (to_word w) file.now src0 n values.old values.new }
{
    let kind = src_type(Source::First, w);
    match operand_of(false, src_is_a0(Source::First, w), Source::First, w) {
        Operand::Fixed(pattern) => spread(load(kind, pattern), n, values),
        Operand::Vector(_) => {}
        Operand::Direct(r) => {
            lines(file, r, kind, r.size, n, values);
            modify_all(src_modifier(Source::First, w), n, values);
        }
    }
}
