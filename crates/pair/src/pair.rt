// The call, for all inputs.
ghost use Rattle.std.specs.Prelude.{true, false, ◌≡◌, length};
ghost use Rattle.paper.specs.Kernel.{long_and_short, good};
ghost use Rattle.paper.specs.Calls.{accepted, compared_as, paired_as, pair_call};
ghost use Rattle.words.specs.Answer.{answer_is};
ghost use Rattle.packer.specs.Forms.{kernel_of, Taken};

use crate::common::common;
use crate::place::place_long;
use kernel::accept::accept;
use kernel::forms::Forms;
use words::answer::{Answer, Refused, accepted};
use words::limits::{DICTIONARY_BYTES, PLACES};
use words::refusal::Refusal;

// Two accepted kernels, the long one with `ours` instructions and the sent one with `theirs`: 0 if they are the same program, else 31 with how many they have in
// common. The count is the length of what is to be loaded.
fn compare(
    dictionary: &[u8; DICTIONARY_BYTES],
    long: &[u8],
    sent: &[u8],
    ours: u64,
    theirs: u64,
) -> Answer
    requires taken { Taken true dictionary.now long.now × Taken false dictionary.now sent.now }
    requires ours_value { (ours ≡ length (kernel_of true dictionary.now long.now)) × (theirs ≡ length (kernel_of false dictionary.now sent.now)) }
    ensures { answer_is result ≡ compared_as long.now sent.now (kernel_of true dictionary.now long.now)
        (kernel_of false dictionary.now sent.now) }
{
    let mut places = [0u16; PLACES];
    place_long(dictionary, sent, &mut places);
    let same = common(dictionary, long, sent, &places);
    if same != ours || same != theirs {
        return Err(Refused {
            refusal: Refusal::Differs,
            offset: same,
            count: Some(long.len() as u64),
        });
    }
    accepted(sent.len() as u64)
}

// The long kernel has passed, with `ours` instructions: the sent one's refusal, or the comparison.
fn with_sent(dictionary: &[u8; DICTIONARY_BYTES], long: &[u8], sent: &[u8], ours: u64) -> Answer
    requires { Taken true dictionary.now long.now × (ours ≡ length (kernel_of true dictionary.now long.now)) }
    ensures { answer_is result ≡ paired_as long.now sent.now (good (kernel_of true dictionary.now long.now))
        (accepted long_and_short dictionary.now sent.now) }
{
    let mut marks = [0u8; PLACES];
    match accept(Forms::LongAndShort, dictionary, sent, &mut marks) {
        Ok(theirs) => compare(dictionary, long, sent, ours, theirs),
        Err(refused) => Err(Refused {
            count: Some(long.len() as u64),
            ..refused
        }),
    }
}

// The long kernel's refusal, with long words only; then the sent one's; then whether they are the same program.
pub fn pair(dictionary: &[u8], long: &[u8], sent: &[u8]) -> Answer
    ensures { answer_is result ≡ pair_call dictionary.now long.now sent.now }
{
    let Some(dictionary) = dictionary.as_array() else {
        return Err(Refusal::WrongSize.into());
    };
    let mut marks = [0u8; PLACES];
    let ours = accept(Forms::LongOnly, dictionary, long, &mut marks)?;
    with_sent(dictionary, long, sent, ours)
}
