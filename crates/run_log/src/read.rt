// Reading a log that may be cut off at any byte.
ghost use Rattle.std.specs.Prelude.{◌≡◌, ◌≤◌, length};
ghost use Rattle.paper.specs.Log.{at_most, exactly_at, item_at, record_at, reading};
ghost use Rattle.run_log.specs.Meaning.{reach_is, reading_is, Within};

use text::look::find_line;
use text::read::{Unread, digits};
use text::write::width;
use words::limits::{BUDGET_LIMIT, LAST_PLACE};

// The whole records of a log: how many they are, and how many bytes they take.
#[derive(Clone, Copy)]
pub struct Records {
    pub runs: u64,
    pub bytes: usize,
}

// The place after the line of a name and a number, where that line stands at a place.
fn exactly_at(s: &[u8], at: usize, name: &[u8], v: u64) -> Result<usize, Unread>
    requires { length name.now ≤ 11 }
    ensures { reach_is result ≡ exactly_at s.now name.now v at }
{
    find_line(s, at, name, v)?;
    Ok(at + name.len() + width(v) + 1)
}

// The place after the line of a name and the number that its digits make, at most the limit.
fn at_most_at(s: &[u8], at: usize, name: &[u8], limit: u64) -> Result<usize, Unread>
    requires { length name.now ≤ 11 }
    ensures { reach_is result ≡ item_at s.now (at_most name.now limit) at }
{
    if s.len() <= at {
        return Err(Unread::Torn);
    }
    let v = digits(s, at + name.len());
    if limit < v {
        return Err(Unread::Other);
    }
    exactly_at(s, at, name, v)
}

// The place after the record of a run, where its six lines stand at a place.
fn record_at(s: &[u8], run: u64, at: usize) -> Result<usize, Unread>
    ensures { reach_is result ≡ record_at s.now run at }
{
    let verdict = exactly_at(s, at, b"run=", run)?;
    let steps = at_most_at(s, verdict, b"verdict=2", 2)?;
    let place = at_most_at(s, steps, b"steps=", BUDGET_LIMIT)?;
    let awake = at_most_at(s, place, b"place=", LAST_PLACE)?;
    let end = at_most_at(s, awake, b"awake=", 16)?;
    exactly_at(s, end, b"end=", 1)
}

// The records that are whole in the first bytes of a log; none if the text is no beginning of a log.
pub fn read(s: &[u8]) -> Option<Records>
    ensures { (reading_is result ≡ reading s.now) × Within (length s.now) (reading_is result) }
{
    let mut bytes: usize = 0;
    let most = s.len() as u64;
    for runs in 0..most {
        match record_at(s, runs, bytes) {
            Ok(next) => bytes = next,
            Err(Unread::Torn) => return Some(Records { runs, bytes }),
            Err(Unread::Other) => return None,
        }
    }
    Some(Records { runs: most, bytes })
}
