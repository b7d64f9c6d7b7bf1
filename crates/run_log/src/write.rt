// Writing a record after the last whole one.
ghost use Rattle.std.specs.Prelude.{◌≡◌, ◌≤◌, length};
ghost use Rattle.std.proofs.lemmas.List.Edits.{sets};
ghost use Rattle.paper.specs.Log.{entry_legal, record_text, added_at};
ghost use Rattle.words.specs.Answer.{Wrote};
ghost use Rattle.run_log.specs.Meaning.{entry_is};

use crate::read::Records;
use text::write::{put_line, width};
use words::answer::{Answer, Refused, accepted};
use words::limits::{BUDGET_LIMIT, LAST_PLACE};
use words::refusal::Refusal;

// What a finished run leaves in the log.
// The verdict is a number, as C gives any; `legal` judges it.
#[derive(Clone, Copy)]
pub struct Entry {
    pub verdict: u64,
    pub steps: u64,
    pub place: u64,
    pub awake: u64,
}

// Every value is in its range.
pub fn legal(e: Entry) -> bool
    ensures { result ≡ entry_legal (entry_is e) }
{
    (20 <= e.verdict)
        & (e.verdict <= 22)
        & (e.steps <= BUDGET_LIMIT)
        & (e.place <= LAST_PLACE)
        & (e.awake <= 16)
}

// How many bytes a record's text has.
fn text_length(run: u64, e: Entry) -> usize
    ensures { result ≡ length (record_text run (entry_is e)) }
{
    41 + width(run) + width(e.verdict) + width(e.steps) + width(e.place) + width(e.awake)
}

// Writes a record at the start of the part of the log that is lent.
fn write_record(tail: &mut [u8], run: u64, e: Entry)
    requires { length (record_text run (entry_is e)) ≤ length tail.old }
    ensures { tail.new ≡ sets tail.old 0 (record_text run (entry_is e)) }
{
    let verdict = put_line(tail, 0, b"run=", run);
    let steps = put_line(tail, verdict, b"verdict=", e.verdict);
    let place = put_line(tail, steps, b"steps=", e.steps);
    let awake = put_line(tail, place, b"place=", e.place);
    let end = put_line(tail, awake, b"awake=", e.awake);
    put_line(tail, end, b"end=", 1);
}

// Writes a record after the whole ones of the log, where it has room: the writer is lent the part of the log that starts there.
pub fn add(log: &mut [u8], count: u64, whole: Records, e: Entry) -> Answer
    requires { whole.bytes ≤ length log.old }
    ensures { Wrote (added_at log.old count whole.bytes (record_text whole.runs (entry_is e))) result log.new }
{
    let at = whole.bytes;
    let n = text_length(whole.runs, e);
    if log.len() - at < n {
        return Err(Refused {
            refusal: Refusal::OutputTooShort,
            offset: 0,
            count: Some(count),
        });
    }
    write_record(&mut log[at..], whole.runs, e);
    accepted((at + n) as u64)
}
