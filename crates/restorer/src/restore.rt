// Reads a dictionary and a listing, and writes the kernel, or the four lines of a refusal.
ghost use Rattle.std.specs.Prelude.{IfSome, OnErr, OnOk};
ghost use Rattle.std.specs.Io.KnownBytes.{Appends};
ghost use Rattle.front.specs.Streams.{AppendsPart};
ghost use Rattle.words.specs.Refusals.{number};
ghost use Rattle.restorer.specs.Restored.{refusal_text, restored_output, restored_errors};

use front::input::read_full;
use front::lines::{LINES_BYTES, put_report};
use front::output::write_full;
use front::report::refused;
use listing::read::read;
use std::io;
use std::io::{Read, Write};
use words::answer::Refused;
use words::limits::{DICTIONARY_BYTES, KERNEL_BYTES};

// One byte more than a listing can have, which is 70 for each of 4,096 instructions.
const TEXT_BYTES: usize = 286721;

// As much as is read: a dictionary and a listing. An array holds it, since there is no heap.
const INPUT_BYTES: usize = DICTIONARY_BYTES + TEXT_BYTES;

// Writes the four lines of a refusal, or a beginning of them before an error.
fn say<E: Write>(errors: &mut E, refusing: Refused) -> io::Result<()>
    ensures ok { OnOk result (Appends (E.contents errors.old) (E.contents errors.new) (refusal_text (number refusing.refusal) refusing.offset)) }
    ensures err { OnErr result (AppendsPart (E.contents errors.old) (E.contents errors.new) (refusal_text (number refusing.refusal) refusing.offset)) }
{
    let mut lines = [0u8; LINES_BYTES];
    let n = put_report(
        &mut lines,
        refused(refusing.refusal.number(), refusing.offset),
    );
    write_full(errors, &lines[..n])
}

// Writes what an input is read back as, or beginnings of it before an error.
pub fn put_restored<W: Write, E: Write>(
    output: &mut W,
    errors: &mut E,
    input: &[u8],
) -> io::Result<()>
    ensures output { OnOk result (Appends (W.contents output.old) (W.contents output.new) (restored_output input.now)) }
    ensures errors { OnOk result (Appends (E.contents errors.old) (E.contents errors.new) (restored_errors input.now)) }
    ensures output_err { OnErr result (AppendsPart (W.contents output.old) (W.contents output.new) (restored_output input.now)) }
    ensures errors_err { OnErr result (AppendsPart (E.contents errors.old) (E.contents errors.new) (restored_errors input.now)) }
{
    let (dictionary, text) = input.split_at(DICTIONARY_BYTES.min(input.len()));
    let mut kernel = [0u8; KERNEL_BYTES];
    match read(dictionary, text, &mut kernel) {
        Ok(told) => write_full(output, &kernel[..told.count as usize]),
        Err(refusing) => say(errors, refusing),
    }
}

// What follows the bytes that are read changes nothing (`read_cut`) and stays unread.
// (It reads as `front::talk::talk` does; that has one writer, and this two, each with a law of its own.)
pub fn restore<R: Read, W: Write, E: Write>(
    reader: &mut R,
    output: &mut W,
    errors: &mut E,
) -> io::Result<()>
    ensures output { OnOk result (IfSome (R.remaining reader.old)
        (λ xs. Appends (W.contents output.old) (W.contents output.new) (restored_output xs))) }
    ensures errors { OnOk result (IfSome (R.remaining reader.old)
        (λ xs. Appends (E.contents errors.old) (E.contents errors.new) (restored_errors xs))) }
    ensures output_err { OnErr result (IfSome (R.remaining reader.old)
        (λ xs. AppendsPart (W.contents output.old) (W.contents output.new) (restored_output xs))) }
    ensures errors_err { OnErr result (IfSome (R.remaining reader.old)
        (λ xs. AppendsPart (E.contents errors.old) (E.contents errors.new) (restored_errors xs))) }
{
    let mut input = [0u8; INPUT_BYTES];
    let n = read_full(reader, &mut input)?;
    put_restored(output, errors, &input[..n])
}
