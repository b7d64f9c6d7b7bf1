// Packing and unpacking, for all inputs. A refusal leaves the output as it was.
// Dictionary and kernel go in two, with the clause `Taken`: three functions have it, of which one calls the others, and what they ensure is said of the two by name (`result_of`, `kernel_of`).
ghost use Rattle.std.specs.Prelude.{◌≡◌};
ghost use Rattle.std.specs.Option.{option_copied};
ghost use Rattle.paper.specs.Dictionary.{dictionary_of};
ghost use Rattle.paper.specs.Calls.{deliver, accepted, relaid, pack_call, unpack_call};
ghost use Rattle.short.specs.Sets.{Serves};
ghost use Rattle.words.specs.Answer.{Wrote};
ghost use Rattle.kernel.specs.Judging.{forms_is};
ghost use Rattle.packer.specs.Forms.{form_of, forms_of, Taken, result_of};

use crate::form::SHORTS;
use crate::place::place_all;
use crate::write::write_all;
use kernel::accept::accept;
use kernel::forms::Forms;
use short::sets::{IndexSets, TABLE_SETS, gather_into};
use words::answer::{Answer, accepted};
use words::limits::{DICTIONARY_BYTES, PLACES};
use words::refusal::Refusal;

// A kernel of so many bytes or more is worth gathering sets for; in a shorter one numbers are walked.
const WORTH_SETS: usize = 128;

// The sets to shorten words by, or none where words are few or not shortened. They are gathered in lent storage, table by table: an answer that holds them would be
// moved, which takes longer than packing a short kernel, and their stack once more.
fn sets_for<'a>(
    packs: bool,
    dictionary: &[u8; DICTIONARY_BYTES],
    kernel: &[u8],
    sets: &'a mut IndexSets,
) -> Option<&'a IndexSets>
    ensures { Serves (dictionary_of dictionary.now) (option_copied result) }
{
    if packs && WORTH_SETS <= kernel.len() {
        gather_into(dictionary, sets);
        return Some(sets);
    }
    None
}

// An accepted kernel laid out anew, in the output's first bytes; 14 where it is shorter.
fn lay_out(
    packs: bool,
    dictionary: &[u8; DICTIONARY_BYTES],
    kernel: &[u8],
    out: &mut [u8],
) -> Answer
    requires { Taken packs dictionary.now kernel.now }
    ensures { Wrote (deliver (result_of packs dictionary.now kernel.now) out.old) result out.new }
{
    let mut room = [[0u32; TABLE_SETS]; 5];
    let sets = sets_for(packs, dictionary, kernel, &mut room);
    let mut shorts = [0u64; SHORTS];
    let mut places = [0u16; PLACES];
    let end = place_all(packs, dictionary, sets, kernel, &mut shorts, &mut places);
    let length = 8 * (end as usize);
    if out.len() < length {
        return Err(Refusal::OutputTooShort.into());
    }
    write_all(packs, dictionary, kernel, &shorts, &places, out);
    accepted(length as u64)
}

// Which words a kernel is taken with: to be packed, long ones only.
fn taken(packs: bool) -> Forms
    ensures { forms_is result ≡ forms_of packs }
{
    if packs {
        Forms::LongOnly
    } else {
        Forms::LongAndShort
    }
}

// The kernel laid out anew: packed, from long words only, or unpacked.
fn relay(packs: bool, dictionary: &[u8], kernel: &[u8], out: &mut [u8]) -> Answer
    ensures { Wrote (relaid (form_of packs (dictionary_of dictionary.now)) out.old
        (accepted (forms_of packs) dictionary.now kernel.now)) result out.new }
{
    let Some(dictionary) = dictionary.as_array() else {
        return Err(Refusal::WrongSize.into());
    };
    let mut marks = [0u8; PLACES];
    accept(taken(packs), dictionary, kernel, &mut marks)?;
    lay_out(packs, dictionary, kernel, out)
}

// The kernel with each word short that can be, in the output's first bytes.
pub fn pack(dictionary: &[u8], kernel: &[u8], out: &mut [u8]) -> Answer
    ensures { Wrote (pack_call dictionary.now kernel.now out.old) result out.new }
{
    relay(true, dictionary, kernel, out)
}

// The kernel with each word long, in the output's first bytes.
pub fn unpack(dictionary: &[u8], kernel: &[u8], out: &mut [u8]) -> Answer
    ensures { Wrote (unpack_call dictionary.now kernel.now out.old) result out.new }
{
    relay(false, dictionary, kernel, out)
}
