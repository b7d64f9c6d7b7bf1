// An instruction that has passed, read again without being judged.
ghost use Rattle.std.specs.Prelude.{◌≡◌};
ghost use Rattle.paper.specs.Dictionary.{dictionary_of};
ghost use Rattle.words.specs.Words.{to_word};
ghost use Rattle.kernel.specs.Standing.{Whole, Fetches};

use short::expand::expand;
use words::bytes::{Word, read8, read16};
use words::fields::is_short;
use words::limits::DICTIONARY_BYTES;

// Its size in places of 8 bytes, and its word.
#[derive(Clone, Copy)]
pub struct Fetched {
    pub size: u64,
    pub word: Word,
}

// The instruction that starts at byte `from`, expanded if it is short.
pub fn word_at(dictionary: &[u8; DICTIONARY_BYTES], kernel: &[u8], from: usize) -> Fetched
    requires { Whole kernel.now from }
    ensures { Fetches (dictionary_of dictionary.now) kernel.now from result.size (to_word result.word) }
{
    let s = read8(kernel, from);
    if is_short(s) {
        return Fetched {
            size: 1,
            word: expand(dictionary, s),
        };
    }
    Fetched {
        size: 2,
        word: read16(kernel, from),
    }
}
