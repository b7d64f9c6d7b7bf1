// What a run decodes ahead: for each place the word that stands there, expanded, and where it leads.
ghost use Rattle.std.specs.Prelude.{false, cond, ◌≡◌, ℕ, ◌+◌, ◌*◌, ◌^◌, ◌<◌, ◌≤◌, length, get_or};
ghost use Rattle.words.specs.Words.{to_word};
ghost use Rattle.machine.specs.Branches.{ways_is};
ghost use Rattle.run.specs.Kernels.{instructions, IsAccepted};
ghost use Rattle.run.specs.Tables.{ways_from, unusual_from, Tabled, Entered};

use crate::accepted::Accepted;
use crate::ways::ways_of;
use kernel::fetch::word_at;
use kernel::jumps::is_marked;
use machine::ways::Ways;
use words::bytes::Word;
use words::unusual::is_unusual;

// A row of the table: a word, where it leads, and whether it is unusual.
// In the table, which is fixed memory, it is three numbers: half the bytes of a Row.
#[derive(Clone, Copy)]
pub struct Row {
    pub word: Word,
    pub ways: Ways,
    pub unusual: bool,
}

// Three places of 16 bits as one number, and whether the word is unusual as its highest bit.
fn code_of(ways: Ways, unusual: bool) -> u64
    requires { (ways.next < 65536) × (ways.jump < 65536) × (ways.wait < 65536) }
    ensures { result ≡ ways.next + ways.jump * 65536 + ways.wait * 4294967296 + cond unusual 9223372036854775808 0 }
{
    let places = ways.next + ways.jump * 65536 + ways.wait * 4294967296;
    if unusual {
        places + 9223372036854775808
    } else {
        places
    }
}

// The row at a place.
pub(crate) fn row_at(table: &[u64], place: u64) -> Row
    requires { (3 * place + 2 < length table.now) × (place < 65536) }
    ensures { (to_word result.word ≡ get_or table.now (3 * place) 0 + get_or table.now (3 * place + 1) 0 * 2 ^ 64)
        × (ways_is result.ways ≡ ways_from (get_or table.now (3 * place + 2) 0)) × (result.unusual ≡ unusual_from (get_or table.now (3 * place + 2) 0)) }
{
    let i = 3 * (place as usize);
    let code = table[i + 2];
    Row {
        word: Word {
            lo: table[i],
            hi: table[i + 1],
        },
        ways: Ways {
            next: code % 65536,
            jump: code / 65536 % 65536,
            wait: code / 4294967296 % 65536,
        },
        unusual: code >> 63 != 0,
    }
}

impl Accepted<'_> {
    // The row at place p, if an instruction starts there, is stored.
    pub(crate) fn put_row(self, p: usize, table: &mut [u64])
        requires { IsAccepted self.dictionary.now self.kernel.now self.marks.now × (8 * p < length self.kernel.now) × (3 * p + 2 < length table.old) }
        ensures { Entered (instructions self.entry.dictionary.now self.entry.kernel.now) table.old table.new p }
    {
        if is_marked(self.marks, p as u64) {
            let f = word_at(self.dictionary, self.kernel, 8 * p);
            let w = f.word;
            let i = 3 * p;
            table[i] = w.lo;
            table[i + 1] = w.hi;
            table[i + 2] = code_of(ways_of(w, p as u64, f.size), is_unusual(w));
        }
    }

    // All rows. The answer is the place where the kernel ends.
    pub(crate) fn fill(self, table: &mut [u64]) -> u64
        requires { IsAccepted self.dictionary.now self.kernel.now self.marks.now × (3 * length self.kernel.now ≤ 8 * length table.old) }
        ensures { ((budget start : ℕ) → Tabled (instructions self.entry.dictionary.now self.entry.kernel.now) result budget start table.new)
            × (length table.new ≡ length table.old) }
    {
        let end = self.kernel.len() / 8;
        for p in 0..end {
            self.put_row(p, table);
        }
        end as u64
    }
}
