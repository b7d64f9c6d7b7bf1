// Reading into fixed memory.
ghost use Rattle.std.specs.Prelude.{◌≡◌, ◌≤◌, IfOk, IfSome, OnErr, length, take};
ghost use Rattle.std.specs.Io.KnownBytes.{Consumes};
ghost use Rattle.front.specs.Streams.{ConsumesPart};

use std::io;
use std::io::Read;

// Reads until the bytes are full or the input ends; how many were read, and no more than these. What was read before an error stands in the bytes. (The reader
// decides how far a turn goes, so no `for` counts it.)
pub fn read_full<R: Read>(reader: &mut R, bytes: &mut [u8]) -> io::Result<usize>
    ensures within { IfOk result (λ n. n ≤ length bytes.new) }
    ensures first { IfOk result (λ n. IfSome (R.remaining reader.old) (λ xs. take n bytes.new ≡ take (length bytes.new) xs)) }
    ensures rest { IfOk result (λ n. Consumes (R.remaining reader.old) (R.remaining reader.new) (take n bytes.new)) }
    ensures err { OnErr result (ConsumesPart (R.remaining reader.old) (R.remaining reader.new) bytes.new) }
{
    let mut at = 0;
    while at < bytes.len() {
        let n = reader.read(&mut bytes[at..])?;
        if n == 0 {
            return Ok(at);
        }
        at += n;
    }
    Ok(at)
}
