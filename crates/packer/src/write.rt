// The second pass: the instructions written where they come to stand.
ghost use Rattle.std.specs.Prelude.{◌++◌, ◌≡◌, ◌+◌, ◌*◌, ◌<◌, ◌≤◌, length, take, drop, get_or};
ghost use Rattle.paper.specs.Dictionary.{dictionary_of};
ghost use Rattle.paper.specs.Operation.{operation};
ghost use Rattle.paper.specs.Jump.{distances};
ghost use Rattle.paper.specs.Packing.{places_taken, encode, aimed};
ghost use Rattle.words.specs.Words.{to_word};
ghost use Rattle.distances.specs.Distances.{distance_is};
ghost use Rattle.kernel.specs.Marks.{place_count};
ghost use Rattle.kernel.specs.Instructions.{instr_is};
ghost use Rattle.packer.specs.Forms.{form_of, recalled, kernel_of, Taken, result_of, result_end};
ghost use Rattle.packer.specs.Stages.{Placed, new_places, ReachesAt, Reaches};
ghost use Rattle.packer.specs.Rewriting.{old_place};
ghost use Rattle.packer.specs.Keeping.{AllKept};

use crate::form::{SHORTS, places_taken};
use distances::branch::{Distances, distances_in};
use distances::distance::{Distance, aim};
use kernel::instructions::{Instruction, Instructions};
use words::bytes::{Word, write, write16};
use words::limits::{DICTIONARY_BYTES, PLACES};

// Stores a word in its form from byte `from` on.
// (0 for none, as `form` says.)
fn write_word(short: u64, w: Word, out: &mut [u8], from: usize)
    requires { from + 8 * places_taken (recalled short) ≤ length out.old }
    ensures { out.new ≡ take from out.old
        ++ (encode (recalled short) (to_word w) ++ drop (from + 8 * places_taken (recalled short)) out.old) }
{
    if short == 0 {
        write16(out, from, w);
    } else {
        write::<8>(out, from, short);
    }
}

// The new place of what the instruction's distance d leads to.
fn new_place(places: &[u16; PLACES], d: Distance, i: Instruction) -> u64
    requires { ReachesAt places.now (old_place (distance_is d) (to_word i.word) i.place i.size) }
    ensures { (result ≡ get_or places.now (old_place (distance_is d) (to_word i.word) i.place i.size) 0) × (result < place_count) }
{
    let old = i.target(d).unwrap_or(0) as usize;
    u64::from(places[old])
}

// The word of instruction i, which comes to stand from place `to` to place `next`, with its distances rewritten.
pub fn rewrite(places: &[u16; PLACES], i: Instruction, to: u64, next: u64) -> Word
    requires { (to < place_count) × (next < place_count) × Reaches places.now (instr_is i) }
    ensures { to_word result ≡ aimed (distances (operation (to_word i.word))) (to_word i.word) to next (new_places places.now (instr_is i)) }
{
    let w = i.word;
    match distances_in(w) {
        Distances::Nothing => w,
        Distances::One(d) => aim(d, w, to, next, new_place(places, d, i)),
        Distances::Two(d, e) => {
            let first = new_place(places, d, i);
            let second = new_place(places, e, i);
            aim(e, aim(d, w, to, next, first), to, next, second)
        }
    }
}

// The kernel's instructions, in the forms that were kept, as the output's first bytes.
// `packs` is for the contract, which says by it what was kept; a ghost value in its place could only be chosen from the call's other arguments.
pub(crate) fn write_all(
    packs: bool,
    dictionary: &[u8; DICTIONARY_BYTES],
    kernel: &[u8],
    shorts: &[u64; SHORTS],
    places: &[u16; PLACES],
    out: &mut [u8],
)
    requires taken { Taken packs dictionary.now kernel.now }
    requires placed { Placed (form_of packs (dictionary_of dictionary.now)) (kernel_of packs dictionary.now kernel.now) places.now }
    requires all_kept { AllKept (form_of packs (dictionary_of dictionary.now)) (kernel_of packs dictionary.now kernel.now) shorts.now }
    requires kernel_in_bounds { 8 * result_end packs dictionary.now kernel.now ≤ length out.old }
    ensures { out.new ≡ result_of packs dictionary.now kernel.now
        ++ drop (8 * result_end packs dictionary.now kernel.now) out.old }
{
    let mut to: u64 = 0;
    for (n, i) in Instructions::of(dictionary, kernel).enumerate() {
        let short = shorts[n];
        let next = to + places_taken(short);
        let w = rewrite(places, i, to, next);
        let at = 8 * (to as usize);
        write_word(short, w, out, at);
        to = next;
    }
}
