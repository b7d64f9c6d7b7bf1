// The flag that a word chooses.
ghost use Rattle.std.specs.Prelude.{[], ◌≡◌};
ghost use Rattle.paper.specs.Enable.{chosen_flag};
ghost use Rattle.words.specs.Words.{to_word};
ghost use Rattle.execute.specs.Stores.{store_of, with_chosen};

use lanes::flags::Flags;
use words::bytes::Word;
use words::fields::flag_choice;

// The flag that a word chooses.
pub fn chosen(w: Word, f: Flags<u64>) -> u64
    ensures { result ≡ chosen_flag (to_word w) (store_of [] f []) }
{
    if flag_choice(w) == 0 {
        f.flag0
    } else {
        f.flag1
    }
}

// The flags with another in place of the one that a word chooses: of numbers, those that `FlagsOf` says (`flags_changed`).
pub fn with_chosen<T: Copy>(w: Word, f: Flags<T>, flag: T) -> Flags<T>
    ensures { result ≡ with_chosen (to_word w) f flag }
{
    if flag_choice(w) == 0 {
        Flags { flag0: flag, ..f }
    } else {
        Flags { flag1: flag, ..f }
    }
}
