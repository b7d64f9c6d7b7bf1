// One instruction of a kernel: 3, then 4, 5, then 6 to 11.
ghost use Rattle.std.specs.Prelude.{◌≡◌, ◌≤◌, length};
ghost use Rattle.paper.specs.Dictionary.{dictionary_of};
ghost use Rattle.paper.specs.Kernel.{judge_word, judge_short, judge_long, judge_at};
ghost use Rattle.words.specs.Words.{to_word};
ghost use Rattle.kernel.specs.Judging.{judged_is, forms_is};

use crate::fetch::Fetched;
use crate::forms::Forms;
use judge::refusal::judge;
use short::expand::expand;
use table::regions::Regions;
use words::bytes::{Word, read8, read16};
use words::fields::{is_short, operation, operation_in};
use words::limits::DICTIONARY_BYTES;
use words::operation::{is_branch, is_listed};
use words::refusal::Refusal;

// A parameter `forms` says which words are taken. A parameter `regions` is the table of what source fields allow.

// 6 to 11 of an expanded word.
fn judge_word(regions: &Regions, size: u64, w: Word) -> Result<Fetched, Refusal>
    ensures { judged_is result ≡ judge_word size (to_word w) }
{
    judge(regions, w)?;
    Ok(Fetched { size, word: w })
}

// 4, 5, then 6 to 11, of a short word.
fn judge_short(
    regions: &Regions,
    forms: Forms,
    dictionary: &[u8; DICTIONARY_BYTES],
    s: u64,
) -> Result<Fetched, Refusal>
    ensures { judged_is result ≡ judge_short (forms_is forms) (dictionary_of dictionary.now) s }
{
    if !is_listed(operation_in(s)) {
        return Err(Refusal::Unlisted);
    }
    if is_branch(operation_in(s)) {
        return Err(Refusal::WrongForm);
    }
    match forms {
        Forms::LongOnly => Err(Refusal::WrongForm),
        Forms::LongAndShort => judge_word(regions, 1, expand(dictionary, s)),
    }
}

// 4, then 6 to 11, of a long word.
fn judge_long(regions: &Regions, w: Word) -> Result<Fetched, Refusal>
    ensures { judged_is result ≡ judge_long (to_word w) }
{
    if !is_listed(operation(w)) {
        return Err(Refusal::Unlisted);
    }
    judge_word(regions, 2, w)
}

// 3 to 11 of the instruction that starts at byte `from`.
pub(crate) fn judge_at(
    regions: &Regions,
    forms: Forms,
    dictionary: &[u8; DICTIONARY_BYTES],
    kernel: &[u8],
    from: usize,
) -> Result<Fetched, Refusal>
    requires { from ≤ length kernel.now }
    ensures { judged_is result ≡ judge_at (forms_is forms) (dictionary_of dictionary.now) kernel.now from }
{
    let left = kernel.len() - from;
    if left < 8 {
        return Err(Refusal::CutShort);
    }
    let s = read8(kernel, from);
    if is_short(s) {
        return judge_short(regions, forms, dictionary, s);
    }
    if left < 16 {
        return Err(Refusal::CutShort);
    }
    let w = read16(kernel, from);
    judge_long(regions, w)
}
