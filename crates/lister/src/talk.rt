// Reads a dictionary and a kernel, and writes the listing or the four lines.
ghost use Rattle.std.specs.Prelude.{IfSome, OnErr, OnOk};
ghost use Rattle.std.specs.Io.KnownBytes.{Appends};
ghost use Rattle.front.specs.Streams.{AppendsPart};
ghost use Rattle.lister.specs.Shown.{input_shown};

use crate::show::{TEXT_BYTES, show};
use front::input::read_full;
use front::output::write_full;
use front::talk::INPUT_BYTES;
use std::io;
use std::io::{Read, Write};
use words::limits::DICTIONARY_BYTES;

// Writes what is shown of an input, or a beginning of it before an error.
pub fn put_shown<W: Write>(writer: &mut W, input: &[u8]) -> io::Result<()>
    ensures ok { OnOk result (Appends (W.contents writer.old) (W.contents writer.new) (input_shown input.now)) }
    ensures err { OnErr result (AppendsPart (W.contents writer.old) (W.contents writer.new) (input_shown input.now)) }
{
    let (dictionary, kernel) = input.split_at(DICTIONARY_BYTES.min(input.len()));
    let mut text = [0u8; TEXT_BYTES];
    let n = show(dictionary, kernel, &mut text);
    write_full(writer, &text[..n])
}

// What `front::talk::talk` does with its text. (One function for both would take the sizes of two arrays, and a trait or a closure with a law of the text that it writes: longer than the two.)
// Of a kernel that is too long one byte more than is allowed is read, so that it is refused; what follows that byte changes nothing (`shown_input_cut`).
pub fn talk<R: Read, W: Write>(reader: &mut R, writer: &mut W) -> io::Result<()>
    ensures ok { OnOk result (IfSome (R.remaining reader.old)
        (λ xs. Appends (W.contents writer.old) (W.contents writer.new) (input_shown xs))) }
    ensures err { OnErr result (IfSome (R.remaining reader.old)
        (λ xs. AppendsPart (W.contents writer.old) (W.contents writer.new) (input_shown xs))) }
{
    let mut input = [0u8; INPUT_BYTES];
    let n = read_full(reader, &mut input)?;
    put_shown(writer, &input[..n])
}
