// Reading one instruction: of the one instruction whose lines can stand at a byte of the text, the lines are written and held against what stands there. So
// nothing else is read.
ghost use Rattle.std.specs.Prelude.{cond, ◌≡◌, ◌≤◌, ◌<◌, eqb, length, drop, get_or};
ghost use Rattle.paper.specs.Dictionary.{dictionary_of};
ghost use Rattle.paper.specs.Text.{hex_from};
ghost use Rattle.paper.specs.Listing.{word_at, candidate, instr_at};
ghost use Rattle.words.specs.Words.{to_word};
ghost use Rattle.kernel.specs.Jumps.{instr_of};
ghost use Rattle.kernel.specs.Marks.{place_count};
ghost use Rattle.listing.specs.Reading.{LinesAt};

use crate::taken::is_taken;
use crate::write::put_lines;
use kernel::instructions::Instruction;
use table::regions::Regions;
use text::read::{find, hex_digits};
use text::write::width;
use words::bytes::Word;
use words::limits::DICTIONARY_BYTES;

// The most bytes that an instruction's lines can have, by any place.
// They are written into an array of so many, since there is no heap.
const LINES_BYTES: usize = 86;

// The dwords of 64 bits.
const DWORD: u64 = 4294967296;

// The number of the eight hex digits from a byte on; those past the end count as 0.
fn digits_at(text: &[u8], from: usize) -> u64
    ensures { (result ≡ hex_from 0 8 (drop from text.now)) × (result < 4294967296) }
{
    if text.len() < from {
        return 0;
    }
    hex_digits(text, from)
}

// The word whose four lines begin at a byte.
fn word_in(text: &[u8], from: usize) -> Word
    requires { from ≤ 9223372036854775900 }
    ensures { to_word result ≡ word_at text.now from }
{
    let a = digits_at(text, from + 3);
    let b = digits_at(text, from + 15);
    let c = digits_at(text, from + 27);
    let d = digits_at(text, from + 39);
    Word {
        lo: a + b * DWORD,
        hi: c + d * DWORD,
    }
}

// The size that a form's first letter tells: 1 of `short`, else 2.
fn size_in(text: &[u8], at: usize) -> u64
    ensures { (result ≡ cond (eqb (get_or text.now at 0) 115) 1 2) × (result ≤ 2) }
{
    match text.get(at) {
        Some(b's') => 1,
        _ => 2,
    }
}

// The one instruction at a place whose lines can begin at a byte.
pub(crate) fn candidate(text: &[u8], place: u64, from: usize) -> Instruction
    requires inside { from ≤ length text.now }
    requires near { place < place_count }
    ensures stands { result.place ≡ place }
    ensures value { instr_of place result.size (to_word result.word) ≡ candidate text.now place from }
{
    let value = from + width(place) + 12;
    let size = size_in(text, value);
    let lines = value + 7 - (size as usize);
    let word = word_in(text, lines);
    Instruction { place, size, word }
}

// The instruction at a place whose six lines begin at a byte, if it can be read, and the byte after its lines. The table of what source fields allow is lent.
pub(crate) fn lines_at(
    regions: &Regions,
    dictionary: &[u8; DICTIONARY_BYTES],
    text: &[u8],
    place: u64,
    from: usize,
) -> Option<(Instruction, usize)>
    requires inside { from ≤ length text.now }
    requires near { place < place_count }
    ensures { LinesAt (instr_at (dictionary_of dictionary.now) text.now place from) from result }
{
    let instruction = candidate(text, place, from);
    let mut lines = [0u8; LINES_BYTES];
    let n = put_lines(&mut lines, 0, instruction);
    find(text, from, &lines[..n]).ok()?;
    if !is_taken(regions, dictionary, instruction.size, instruction.word) {
        return None;
    }
    Some((instruction, from + n))
}
