// The instructions of a kernel, one after the other, read again without being judged.
ghost use Rattle.std.specs.Prelude.{true, ◌≡◌, ◌≤◌, ◌<◌, length};
ghost use Rattle.paper.specs.Limits.{kernel_bytes};
ghost use Rattle.kernel.specs.Marks.{place_count};
ghost use Rattle.kernel.specs.Reading.{filled};

use crate::fetch::word_at;
use distances::branch::{Distances, distances_in};
use distances::distance::{Distance, reach};
use words::bytes::Word;
use words::limits::DICTIONARY_BYTES;

// An instruction of a kernel: where it starts and how long it is, both in places of 8 bytes, and its word, expanded if it is short.
#[derive(Clone, Copy)]
pub struct Instruction {
    pub place: u64,
    pub size: u64,
    pub word: Word,
    pub ghost near: { place < place_count },
    pub ghost small: { size ≤ 2 },
}

impl Instruction {
    ghost use Rattle.std.specs.Prelude.{◌+◌, Bool, ℕ};
    ghost use Rattle.paper.specs.Jump.{reach, targets_of};
    ghost use Rattle.words.specs.Words.{to_word};
    ghost use Rattle.distances.specs.Distances.{distance_is, told};
    ghost use Rattle.kernel.specs.Instructions.{instr_is};
    ghost use Rattle.kernel.specs.Jumps.{lands_at, land_by, Tells};

    // The place to which the distance d in its word leads, if not below place 0.
    pub fn target(self, d: Distance) -> Option<u64>
        ensures { result ≡ told (reach (distance_is d) (to_word self.word) self.place (self.place + self.size)) }
    {
        reach(d, self.word, self.place, self.place + self.size)
    }

    // The distance d leads to a place of which the test holds. It holds of none that lies below place 0.
    fn target_lands<F: Fn(u64) -> bool>(self, d: Distance, lands: &F) -> bool
        requires { F.IsAlwaysCallable lands.now }
        ensures { (land : ℕ → Bool) → Tells (F.post lands.now) land → result ≡ lands_at land (reach (distance_is d) (to_word self.word) self.place (self.place + self.size)) }
    {
        match self.target(d) {
            Some(place) => lands(place),
            None => false,
        }
    }

    // Each distance in its word leads to a place of which the test holds.
    pub fn each_lands<F: Fn(u64) -> bool>(self, lands: F) -> bool
        requires { F.IsAlwaysCallable lands }
        ensures { (land : ℕ → Bool) → Tells (F.post lands) land → result ≡ land_by land (targets_of (instr_is self)) }
    {
        match distances_in(self.word) {
            Distances::Nothing => true,
            Distances::One(d) => self.target_lands(d, &lands),
            Distances::Two(d, e) => self.target_lands(d, &lands) & self.target_lands(e, &lands),
        }
    }
}

// Those that start from byte `from` on in a kernel that whole instructions fill.
#[derive(Clone, Copy, Drop)]
pub struct Instructions<'a> {
    dictionary: &'a [u8; DICTIONARY_BYTES],
    kernel: &'a [u8],
    from: usize,
    ghost bounded: { length kernel.now ≤ kernel_bytes },
    ghost whole: { filled kernel.now from ≡ true },
}

impl<'a> Instructions<'a> {
    ghost use Rattle.paper.specs.Dictionary.{dictionary_of};
    ghost use Rattle.kernel.specs.Reading.{instrs_from};
    ghost use Rattle.kernel.specs.Instructions.{instrs_left, Over};

    // All of a kernel's.
    pub fn of(dictionary: &'a [u8; DICTIONARY_BYTES], kernel: &'a [u8]) -> Instructions<'a>
        requires bounded { length kernel.now ≤ kernel_bytes }
        requires whole { filled kernel.now 0 ≡ true }
        ensures left { instrs_left result ≡ instrs_from (dictionary_of dictionary.now) kernel.now 0 }
        ensures over { Over dictionary.now kernel.now result × (result.from ≡ 0) }
    {
        Instructions {
            dictionary,
            kernel,
            from: 0,
        }
    }
}

impl<'a> Iterator for Instructions<'a> {
    ghost use Rattle.std.specs.Iterator.{item_count};
    ghost use Rattle.kernel.specs.Instructions.{instrs_left, Reads};

    type Item = Instruction;

    ghost next_gives = { Reads };

    ghost remaining = { item_count instrs_left };

    fn next(&mut self) -> Option<Instruction> {
        let from = self.from;
        if self.kernel.len() <= from {
            return None;
        }
        let f = word_at(self.dictionary, self.kernel, from);
        self.from = from + 8 * (f.size as usize);
        Some(Instruction {
            place: (from / 8) as u64,
            size: f.size,
            word: f.word,
        })
    }
}
