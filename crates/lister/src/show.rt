// What is written of a dictionary and a kernel.
ghost use Rattle.std.specs.Prelude.{◌++◌, ◌≡◌, ◌≤◌, length, drop};
ghost use Rattle.lister.specs.Shown.{most_text, shown};

use front::lines::lines_on;
use listing::list::list;

// The most bytes that a listing can have: 70 for each of 4,096 instructions. An array holds them, since there is no heap.
pub const TEXT_BYTES: usize = 286720;

// Writes the listing, or the four lines of a refusal, and answers how many bytes that is; the rest of what is lent stays.
pub fn show(dictionary: &[u8], kernel: &[u8], out: &mut [u8]) -> usize
    requires { most_text ≤ length out.old }
    ensures { (result ≡ length (shown dictionary.now kernel.now)) × (result ≤ most_text) × (out.new ≡ shown dictionary.now kernel.now ++ drop result out.old) }
{
    match list(dictionary, kernel, out) {
        Ok(told) => told.count as usize,
        Err(_) => lines_on(dictionary, kernel, out),
    }
}
