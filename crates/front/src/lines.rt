// The four lines as text.
ghost use Rattle.std.specs.Prelude.{◌++◌, ◌≡◌, ◌≤◌, length, drop};
ghost use Rattle.front.specs.Printed.{report_is, printed_text, check_text};
ghost use Rattle.front.specs.Writing.{most_bytes};

use crate::report::{Report, report_on};
use text::write::put_line;

// The most bytes that they can have: 30 of names, and of each number twenty digits and a newline.
pub const LINES_BYTES: usize = 114;

// Writes a report's lines, and answers how many bytes they have. (It cannot fail, as a `Display` can: that writes to what may be full, or takes a heap.)
pub fn put_report(out: &mut [u8], r: Report) -> usize
    requires { most_bytes ≤ length out.old }
    ensures { (result ≡ length (printed_text (report_is r))) × (result ≤ most_bytes) × (out.new ≡ printed_text (report_is r) ++ drop result out.old) }
{
    let Report {
        verdict,
        at,
        instructions,
        bytes,
    } = r;
    let a = put_line(out, 0, b"verdict=", verdict);
    let b = put_line(out, a, b"at=", at);
    let c = put_line(out, b, b"instructions=", instructions);
    put_line(out, c, b"bytes=", bytes)
}

// Writes what is said of a dictionary and a kernel, and answers how many bytes that is; the rest of what is lent stays.
pub fn lines_on(dictionary: &[u8], kernel: &[u8], out: &mut [u8]) -> usize
    requires { most_bytes ≤ length out.old }
    ensures { (result ≡ length (check_text dictionary.now kernel.now)) × (result ≤ most_bytes) × (out.new ≡ check_text dictionary.now kernel.now ++ drop result out.old) }
{
    put_report(out, report_on(dictionary, kernel))
}
