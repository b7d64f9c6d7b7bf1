// Runs the cases that the files of data/ write in rows, over the calls of `spokeshaver` and the part that decoding hands back inside of Rattle. A line a
// file: how many cases came out as they say, and before it a line for each row that did not. data/sheet.txt says how rows are written.
#![tactic(auto)]

mod call;
mod obey;

use front::input::read_full;
use obey::run_rows;
use std::rt::Files;
use std::{fs, io};

// The files, one after the other.
const FILES: [&str; 4] = ["sheet.txt", "words.txt", "elements.txt", "floats.txt"];

// Room for a file, of which the last byte must stay free: fixed memory, so that a file which is too long is told by its length alone.
const PAGE_BYTES: usize = 262144;

// Runs a file's cases. A file that cannot be opened has none; one that may be cut off has no line.
fn report<R: Files + Print>(rt: &R, file: &str) -> io::Result<()> {
    let mut text = [0u8; PAGE_BYTES];
    let n = match fs::open(rt, file) {
        Ok(mut opened) => read_full(&mut opened, &mut text)?,
        Err(_error) => 0,
    };
    if n == PAGE_BYTES {
        return Ok(());
    }
    let desk = run_rows(rt, file, &text[..n])?;
    let right = desk.right;
    let total = desk.total;
    println!(rt; "{file}: {right} of {total} cases")
}

fn main(rt: HostRuntime) -> io::Result<()> {
    for file in FILES {
        report(&rt, file)?;
    }
    Ok(())
}
