// Reads a dictionary and a kernel, and writes the four lines.
ghost use Rattle.std.specs.Prelude.{IfSome, OnErr, OnOk};
ghost use Rattle.std.specs.Io.KnownBytes.{Appends};
ghost use Rattle.front.specs.Printed.{input_text};
ghost use Rattle.front.specs.Streams.{AppendsPart};

use crate::input::read_full;
use crate::lines::{LINES_BYTES, lines_on};
use crate::output::write_full;
use std::io;
use std::io::{Read, Write};
use words::limits::{DICTIONARY_BYTES, KERNEL_BYTES};

// As much as is read: a dictionary, and of a kernel one byte more than is allowed. An array holds it, since the programs have no heap: only reading and writing can fail.
pub const INPUT_BYTES: usize = DICTIONARY_BYTES + KERNEL_BYTES + 1;

// Writes the four lines on an input, or a beginning of them before an error.
// (`lister::talk` has the same two functions for its text, and says why.)
pub fn put_lines<W: Write>(writer: &mut W, input: &[u8]) -> io::Result<()>
    ensures ok { OnOk result (Appends (W.contents writer.old) (W.contents writer.new) (input_text input.now)) }
    ensures err { OnErr result (AppendsPart (W.contents writer.old) (W.contents writer.new) (input_text input.now)) }
{
    let (dictionary, kernel) = input.split_at(DICTIONARY_BYTES.min(input.len()));
    let mut text = [0u8; LINES_BYTES];
    let n = lines_on(dictionary, kernel, &mut text);
    write_full(writer, &text[..n])
}

// The first bytes are the dictionary, what follows is the kernel. Of a kernel that is too long, one byte more than is allowed is read, so that it is
// refused as too long; what follows that byte changes nothing (`input_cut`) and stays unread.
pub fn talk<R: Read, W: Write>(reader: &mut R, writer: &mut W) -> io::Result<()>
    ensures ok { OnOk result (IfSome (R.remaining reader.old)
        (λ xs. Appends (W.contents writer.old) (W.contents writer.new) (input_text xs))) }
    ensures err { OnErr result (IfSome (R.remaining reader.old)
        (λ xs. AppendsPart (W.contents writer.old) (W.contents writer.new) (input_text xs))) }
{
    let mut input = [0u8; INPUT_BYTES];
    let n = read_full(reader, &mut input)?;
    put_lines(writer, &input[..n])
}

#[cfg(test)]
mod tests {
    use super::*;
    use std::test::Fail;

    // A slice is a reader, a Vec is a writer.
    #[test]
    fn talks(rt: HostRuntime) -> Result<(), Fail> {
        // A dictionary of zeros, and two nops.
        let mut input = [0u8; 544];
        input[512] = 0x7E;
        input[528] = 0x7E;
        let mut written = Vec::new(rt.alloc());
        talk(&mut input.as_slice(), &mut written)?;
        let text = b"verdict=0\nat=0\ninstructions=2\nbytes=32\n";
        assert_eq!(rt; written.as_slice(), text.as_slice());
        Ok(())
    }
}
