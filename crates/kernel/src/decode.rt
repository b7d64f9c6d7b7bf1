// Decoding at a place: 1, 2, and 3 to 11 of the instruction that starts there.
ghost use Rattle.std.specs.Prelude.{◌≡◌, ◌*◌, ◌≤◌, ltb, length, None, IfErr};
ghost use Rattle.paper.specs.Limits.{kernel_bytes};
ghost use Rattle.paper.specs.Calls.{decode_at, decode_call, decode_part};
ghost use Rattle.words.specs.Answer.{answer_is};
ghost use Rattle.kernel.specs.Answers.{decoded_is};

use crate::accept::sized;
use crate::fetch::Fetched;
use crate::forms::Forms;
use crate::instruction::judge_at;
use short::dictionary::in_range;
use table::regions::Regions;
use words::answer::{Answer, Refused, accepted};
use words::limits::PLACES;
use words::refusal::Refusal;

// The place lies before the kernel's end. No kernel has PLACES places, so that the offset is only reckoned where it is small.
fn lies_inside(kernel: &[u8], place: u64) -> bool
    requires { length kernel.now ≤ kernel_bytes }
    ensures { result ≡ ltb (8 * place) (length kernel.now) }
{
    if PLACES as u64 <= place {
        return false;
    }
    8 * (place as usize) < kernel.len()
}

// The instruction that starts at a place, whether or not the kernel has one there. A place at or past the end is 3 with offset 0.
pub fn decode(dictionary: &[u8], kernel: &[u8], place: u64) -> Result<Fetched, Refused>
    ensures value { decoded_is result ≡ decode_at dictionary.now kernel.now place }
    ensures uncounted { IfErr result (λ r. r.count ≡ None) }
{
    let Some(dictionary) = sized(dictionary, kernel) else {
        return Err(Refusal::WrongSize.into());
    };
    if !in_range(dictionary) {
        return Err(Refusal::WideDictionary.into());
    }
    if !lies_inside(kernel, place) {
        return Err(Refusal::CutShort.into());
    }
    let from = 8 * (place as usize);
    let regions = Regions::new();
    match judge_at(&regions, Forms::LongAndShort, dictionary, kernel, from) {
        Err(refusal) => Err(refusal.at(from as u64)),
        Ok(f) => Ok(f),
    }
}

// The count is how many bytes that instruction has.
pub fn decode_size(dictionary: &[u8], kernel: &[u8], place: u64) -> Answer
    ensures { answer_is result ≡ decode_call dictionary.now kernel.now place }
{
    let f = decode(dictionary, kernel, place)?;
    accepted(8 * f.size)
}

// The bytes of that instruction, as a part of the kernel; none where it is refused.
pub fn part<'a>(dictionary: &[u8], kernel: &'a [u8], place: u64) -> &'a [u8]
    ensures { result.now ≡ decode_part dictionary.now kernel.now place }
{
    match decode(dictionary, kernel, place) {
        Err(_) => &kernel[..0],
        Ok(f) => {
            let from = 8 * (place as usize);
            &kernel[from..from + 8 * (f.size as usize)]
        }
    }
}
