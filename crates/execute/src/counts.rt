// How many channels an instruction has.
ghost use Rattle.std.specs.Prelude.{◌≡◌, ◌≤◌};
ghost use Rattle.paper.specs.Word.{exec_size};
ghost use Rattle.paper.specs.Region.{channels};
ghost use Rattle.words.specs.Words.{to_word};

use words::bytes::Word;
use words::fields::exec_size;
use words::region::count_of;

// How many channels a word works on.
pub(crate) fn channels(w: Word) -> usize
    requires { exec_size (to_word w) ≤ 4 }
    ensures { (result ≡ channels (to_word w)) × (result ≤ 16) }
{
    count_of(exec_size(w))
}
