// What an instruction stores.
// `write`, `write_by_element`, `floats::write_floats` and `one::store` ask for null and for the region, and then store each in its own way. One function would take a closure that stores, with clauses of
// what it leaves: longer than the two lines that they share.
ghost use Rattle.std.specs.Prelude.{false, ◌≡◌, length};
ghost use Rattle.paper.specs.Word.{dst_is_a0};
ghost use Rattle.paper.specs.Legal.{bytes_in};
ghost use Rattle.words.specs.Words.{to_word};
ghost use Rattle.execute.specs.Readable.{Writable};
ghost use Rattle.execute.specs.Effects.{written};

use crate::counts::channels;
use lanes::scatter::{scatter, store_each};
use words::addresses::dst_is_a0;
use words::bytes::Word;
use words::fields::is_null;
use words::region::dst_region;

// Results stored in the registers where the mask of the instruction's own channels says; a null destination stores nothing.
pub(crate) fn write(w: Word, enable: u64, registers: &mut [u8], results: &[u64; 16])
    requires { Writable (to_word w) × (length registers.old ≡ bytes_in (dst_is_a0 (to_word w))) × (dst_is_a0 (to_word w) ≡ false) }
    ensures { registers.new ≡ written (to_word w) enable registers.old results.now }
{
    if is_null(w) {
        return;
    }
    let r = dst_region(false, w);
    scatter(
        registers,
        r.origin,
        r.vert,
        r.size,
        channels(w),
        enable,
        results,
    );
}

// Results stored element by element, where the mask says, in the file that the destination stands in, a0 or the registers, which is lent; null stores nothing.
pub(crate) fn write_by_element(w: Word, enable: u64, file: &mut [u8], results: &[u64; 16])
    requires { Writable (to_word w) × (length file.old ≡ bytes_in (dst_is_a0 (to_word w))) }
    ensures { file.new ≡ written (to_word w) enable file.old results.now }
{
    if is_null(w) {
        return;
    }
    let r = dst_region(dst_is_a0(w), w);
    store_each(file, r.origin, r.vert, r.size, channels(w), enable, results);
}
