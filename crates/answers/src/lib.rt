// Answers as the one number in which they cross to C.
#![tactic(auto)]

ghost use Rattle.std.specs.Prelude.{◌≡◌, ◌+◌, ◌*◌, ◌^◌, ◌<◌};
ghost use Rattle.paper.specs.Calls.{verdict, refusal, refusal_with, as_number};
ghost use Rattle.words.specs.Answer.{answer_is};
ghost use Rattle.answers.specs.Small.{Small};

use words::answer::Answer;

// Any number of a verdict or of a refusal, also one that no call of the bench has, with an offset and a count: the number of the answer that says these.
#[tactic(auto, unfolding(paper::specs::Calls::as_number))]
pub fn joined(number: u8, offset: u64, count: u64) -> u64
    requires { (offset < 2 ^ 24) × (count < 2 ^ 32) }
    ensures sum { result ≡ number + 2 ^ 8 * offset + 2 ^ 32 * count }
    ensures verdict { offset ≡ 0 → result ≡ as_number (verdict number count) }
    ensures refusal { count ≡ 0 → result ≡ as_number (refusal number offset) }
    ensures refusal_with { result ≡ as_number (refusal_with number offset count) }
{
    u64::from(number) + 256 * offset + 4294967296 * count
}

// The number of an answer that fits.
// (A function, and no From: an answer that does not fit has no number.)
pub fn number_of(answer: Answer) -> u64
    requires { Small (answer_is answer) }
    ensures { result ≡ as_number (answer_is answer) }
{
    match answer {
        Ok(told) => joined(told.verdict.number(), 0, told.count),
        Err(refused) => joined(
            refused.refusal.number(),
            refused.offset,
            refused.count.unwrap_or(0),
        ),
    }
}
