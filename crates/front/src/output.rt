// Writing bytes as a whole.
ghost use Rattle.std.specs.Prelude.{OnErr, OnOk};
ghost use Rattle.std.specs.Io.KnownBytes.{Appends};
ghost use Rattle.front.specs.Streams.{AppendsPart};

use std::io;
use std::io::Write;

// Writes all of the bytes. Before an error a beginning of them was written; a writer that takes none is one. (The writer decides how far a turn goes, so no `for`
// counts it.)
pub fn write_full<W: Write>(writer: &mut W, bytes: &[u8]) -> io::Result<()>
    ensures ok { OnOk result (Appends (W.contents writer.old) (W.contents writer.new) bytes.now) }
    ensures err { OnErr result (AppendsPart (W.contents writer.old) (W.contents writer.new) bytes.now) }
{
    let mut at = 0;
    while at < bytes.len() {
        let n = writer.write(&bytes[at..])?;
        if n == 0 {
            return Err(io::Error::from(io::ErrorKind::WriteZero));
        }
        at += n;
    }
    Ok(())
}
