// What the channels of an instruction make of their operands.
ghost use Rattle.std.specs.Prelude.{false, ◌≡◌, ℕ, ◌<◌, length, get_or};
ghost use Rattle.paper.specs.Word.{src0, src_is_a0};
ghost use Rattle.paper.specs.Legal.{uses_a0, bytes_in};
ghost use Rattle.paper.specs.Region.{channels};
ghost use Rattle.element.specs.Biased.{Near};
ghost use Rattle.words.specs.Words.{to_word};
ghost use Rattle.words.specs.Operations.{plain_is};
ghost use Rattle.execute.specs.Readable.{Counting};
ghost use Rattle.execute.specs.Results.{SecondRead, Makes};

use crate::clamp::clamp_all;
use crate::combine::combine;
use crate::counts::channels;
use element::value::BASE;
use operands::sources::numbers_of;
use words::bytes::Word;
use words::fields::{cond_modifier, dst_type, saturate};
use words::operation::Plain;
use words::traits::reads_two;

// The second operands, where the operation reads them; else the zeros that were there.
// (`floats::float_second` is the same over another array: an `if` around one call.)
fn second(p: Plain, w: Word, n: usize, registers: &[u8], values: &mut [u64; 16])
    requires counting { Counting (plain_is p) (to_word w) × (n ≡ channels (to_word w)) × (length registers.now ≡ bytes_in (src_is_a0 src0 (to_word w))) × (uses_a0 (plain_is p) (to_word w) ≡ false) }
    requires by_index { (k : ℕ) → k < n → Near 8 (get_or values.old k 0) }
    ensures { SecondRead (plain_is p) (to_word w) registers.now n values.new }
{
    if reads_two(p) {
        numbers_of::<true>(w, n, registers, values);
    }
}

// What the channels of an instruction make of the registers, no operand being a0: all sources are read first. The low bits of each number, as many as the destination's type has,
// are the pattern that its channel stores.
pub(crate) fn results(p: Plain, w: Word, predicate: u64, registers: &[u8], made: &mut [u64; 16])
    requires { Counting (plain_is p) (to_word w) × (length registers.now ≡ bytes_in (src_is_a0 src0 (to_word w))) × (uses_a0 (plain_is p) (to_word w) ≡ false) }
    ensures { Makes (plain_is p) (to_word w) predicate registers.now made.new }
{
    let n = channels(w);
    let mut other = [BASE; 16];
    numbers_of::<false>(w, n, registers, made);
    second(p, w, n, registers, &mut other);
    combine(p, cond_modifier(w), predicate, n, made, &other);
    clamp_all(saturate(w) == 1, dst_type(w), n, made);
}
