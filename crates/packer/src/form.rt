// Which form each word gets.
ghost use Rattle.std.specs.Prelude.{◌≡◌, ◌<◌, ◌≤◌};
ghost use Rattle.std.specs.Option.{option_copied};
ghost use Rattle.paper.specs.Dictionary.{dictionary_of};
ghost use Rattle.paper.specs.Packing.{places_taken};
ghost use Rattle.short.specs.Sets.{Serves};
ghost use Rattle.words.specs.Words.{to_word};
ghost use Rattle.packer.specs.Forms.{form_of, recalled};

use short::sets::IndexSets;
use short::shorten::shorten;
use words::bytes::Word;
use words::limits::{DICTIONARY_BYTES, INSTRUCTION_LIMIT};

// Where a parameter `packs` is true, words are shortened, by the dictionary's sets if there are any; else all are long.
// A bool and no enum, here and in `pack`, `place` and `write`: what is said of it (`form_of`, `Taken`, `kernel_of`, `result_of`) is said of a Bool, and it is asked in three places alone, `form`, `pack::sets_for` and `pack::taken`.

// As many short words as a kernel has instructions, at the most.
pub(crate) const SHORTS: usize = INSTRUCTION_LIMIT as usize;

// The short word that w becomes, or 0 where it stays long.
// A number and no Option: 4,096 of them are kept in fixed memory from one pass to the next, where an Option takes twice the bytes, and what is said of those that are kept (`Kept`, `AllKept`) is said of
// numbers, by `recalled`. No short word is 0.
pub(crate) fn form(
    packs: bool,
    dictionary: &[u8; DICTIONARY_BYTES],
    sets: Option<&IndexSets>,
    w: Word,
) -> u64
    requires { Serves (dictionary_of dictionary.now) (option_copied sets) }
    ensures { recalled result ≡ form_of packs (dictionary_of dictionary.now) (to_word w) }
{
    if !packs {
        return 0;
    }
    shorten(dictionary, sets, w).unwrap_or(0)
}

// The places that a word takes in its form.
pub(crate) fn places_taken(short: u64) -> u64
    ensures { (result ≡ places_taken (recalled short)) × (0 < result) × (result ≤ 2) }
{
    if short == 0 { 2 } else { 1 }
}
