// The calls: the log is the first bytes of a lent buffer, their count given.
ghost use Rattle.std.specs.Prelude.{◌≡◌, ◌≤◌, length, IfOk};
ghost use Rattle.paper.specs.Limits.{state_length};
ghost use Rattle.paper.specs.Log.{log_sized, log_read_call, log_runs_call, log_part, log_append_call, entry_of, log_run_call};
ghost use Rattle.words.specs.Answer.{answer_is, Wrote};
ghost use Rattle.run_log.specs.Meaning.{entry_is, log_records};

use crate::read::{Records, read};
use crate::write::{Entry, add, legal};
use lanes::mask::count_awake;
use words::answer::{Answer, accepted};
use words::bytes::read2;
use words::limits::STATE_LENGTH;
use words::refusal::Refusal;

// The count is within the buffer, and the buffer within a count of 32 bits.
fn sized(log: &[u8], count: u64) -> bool
    ensures { result ≡ log_sized log.now count }
{
    let length = log.len() as u64;
    count <= length && length < 4294967296
}

// The whole records of the log.
fn records_of(log: &[u8], count: u64) -> Result<Records, Refusal>
    ensures is { result ≡ log_records log.now count }
    ensures inside { IfOk result (λ r. r.bytes ≤ length log.now) }
{
    if !sized(log, count) {
        return Err(Refusal::WrongSize);
    }
    read(&log[..count as usize]).ok_or(Refusal::NoLog)
}

// How many bytes the whole records take.
pub fn whole_bytes(log: &[u8], count: u64) -> Answer
    ensures { answer_is result ≡ log_read_call log.now count }
{
    accepted(records_of(log, count)?.bytes as u64)
}

// How many records are whole.
pub fn whole_runs(log: &[u8], count: u64) -> Answer
    ensures { answer_is result ≡ log_runs_call log.now count }
{
    accepted(records_of(log, count)?.runs)
}

// The whole records, as a part of the buffer; empty on refusal.
pub fn whole<'a>(log: &'a [u8], count: u64) -> &'a [u8]
    ensures { result.now ≡ log_part log.now count }
{
    match records_of(log, count) {
        Ok(records) => &log[..records.bytes],
        Err(_) => &log[..0],
    }
}

// Appends a record. Of an entry that is refused the log is not read.
pub fn append(log: &mut [u8], count: u64, e: Entry) -> Answer
    ensures { Wrote (log_append_call log.old count (entry_is e)) result log.new }
{
    if !sized(log, count) {
        return Err(Refusal::WrongSize.into());
    }
    if !legal(e) {
        return Err(Refusal::NoLog.into());
    }
    let records = records_of(log, count)?;
    add(log, count, records, e)
}

// What a run leaves in the log, by its answer as it crossed to C and its state.
fn entry_of(answer: u64, state: &[u8]) -> Entry
    requires { length state.now ≡ state_length }
    ensures { entry_is result ≡ entry_of answer state.now }
{
    let place = read2(state, 4);
    let mask = read2(state, 6);
    Entry {
        verdict: answer % 256,
        steps: answer / 4294967296,
        place,
        awake: u64::from(count_awake(mask as u16)),
    }
}

// Appends what a run answered and the state that it left.
pub fn append_run(log: &mut [u8], count: u64, answer: u64, state: &[u8]) -> Answer
    ensures { Wrote (log_run_call log.old count answer state.now) result log.new }
{
    if state.len() != STATE_LENGTH {
        return Err(Refusal::WrongSize.into());
    }
    append(log, count, entry_of(answer, state))
}
