// The first pass: which form each instruction gets, and where it comes to stand.
ghost use Rattle.std.specs.Prelude.{◌≡◌};
ghost use Rattle.std.specs.Option.{option_copied};
ghost use Rattle.paper.specs.Dictionary.{dictionary_of};
ghost use Rattle.short.specs.Sets.{Serves};
ghost use Rattle.packer.specs.Forms.{form_of, kernel_of, Taken, result_end};
ghost use Rattle.packer.specs.Stages.{Placed};
ghost use Rattle.packer.specs.Keeping.{AllKept};

use crate::form::{SHORTS, form, places_taken};
use kernel::instructions::Instructions;
use short::sets::IndexSets;
use words::limits::{DICTIONARY_BYTES, PLACES};

// Stores each instruction's short word by its number, 0 where it stays long; at each place at which an instruction starts, the place at which it comes to
// stand; and at the end's place the new end, which is answered.
pub(crate) fn place_all(
    packs: bool,
    dictionary: &[u8; DICTIONARY_BYTES],
    sets: Option<&IndexSets>,
    kernel: &[u8],
    shorts: &mut [u64; SHORTS],
    places: &mut [u16; PLACES],
) -> u64
    requires { Taken packs dictionary.now kernel.now × Serves (dictionary_of dictionary.now) (option_copied sets) }
    ensures value { result ≡ result_end packs dictionary.now kernel.now }
    ensures placed { Placed (form_of packs (dictionary_of dictionary.now)) (kernel_of packs dictionary.now kernel.now)
        places.new }
    ensures all_kept { AllKept (form_of packs (dictionary_of dictionary.now)) (kernel_of packs dictionary.now kernel.now)
        shorts.new }
{
    let mut to: u64 = 0;
    for (n, i) in Instructions::of(dictionary, kernel).enumerate() {
        places[i.place as usize] = to as u16;
        let short = form(packs, dictionary, sets, i.word);
        shorts[n] = short;
        to += places_taken(short);
    }
    places[kernel.len() / 8] = to as u16;
    to
}
