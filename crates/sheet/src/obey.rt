// A file's lines one after the other.
use crate::call::{called, looked_at};
use rows::desk::Desk;
use rows::expect::{Outcome, expected};
use rows::row::{Command, row_of};
use rows::text::LINE;
use std::io;

// Does what the command says, and says how it came out. One that is unknown, or has no room, is none.
fn outcome_of(desk: &mut Desk, command: Command) -> Outcome {
    match command {
        Command::Nothing => Outcome::Right,
        Command::Lay(layout) => {
            if desk.lay(layout) {
                Outcome::Right
            } else {
                Outcome::Unasked
            }
        }
        Command::Make(call) => {
            desk.answer = called(desk, call);
            Outcome::Right
        }
        Command::Expect(expectation) => expected(desk, expectation),
        Command::See(look) => looked_at(desk, look),
        Command::Unknown => Outcome::Unasked,
    }
}

// Says where the file is not as it should be, and that the case is wrong.
fn complain(
    rt: &impl Print,
    file: &str,
    desk: &mut Desk,
    what: &str,
    found: u64,
) -> io::Result<()> {
    let line = desk.line;
    desk.fail();
    println!(rt; "{file} line {line}{what}{found:x}")
}

// Obeys one line. A row that is no command, or has no room, counts against its case.
fn obey(rt: &impl Print, file: &str, desk: &mut Desk, line: &[u8]) -> io::Result<()> {
    desk.line = desk.line.wrapping_add(1);
    let row = row_of(line);
    match outcome_of(desk, row.command) {
        Outcome::Right => Ok(()),
        Outcome::Found(found) => complain(rt, file, desk, ": found ", found),
        Outcome::Unasked => complain(rt, file, desk, ": not understood ", row.key),
    }
}

// Obeys a text's lines.
pub fn run_rows(rt: &impl Print, file: &str, text: &[u8]) -> io::Result<Desk> {
    let mut desk = Desk::bare();
    for line in text.split_inclusive(|b| *b <= LINE) {
        obey(rt, file, &mut desk, line)?;
    }
    Ok(desk)
}
