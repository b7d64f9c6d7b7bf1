// The comparison: how many instructions, from the first on, two accepted kernels have in common.
ghost use Rattle.std.specs.Prelude.{true, false, ◌≡◌};
ghost use Rattle.paper.specs.Program.{program, agreed};
ghost use Rattle.laws.specs.Names.{long_form};
ghost use Rattle.packer.specs.Forms.{kernel_of, Taken};
ghost use Rattle.packer.specs.Stages.{Placed};

use kernel::instructions::Instructions;
use packer::write::rewrite;
use words::bytes::read16;
use words::limits::{DICTIONARY_BYTES, PLACES};

// One pass over both: each word of the sent kernel is written as it stands where every word is long, and then it must be the long kernel's word. `places` says
// where the sent kernel's instructions come to stand so.
pub(crate) fn common(
    dictionary: &[u8; DICTIONARY_BYTES],
    long: &[u8],
    sent: &[u8],
    places: &[u16; PLACES],
) -> u64
    requires taken { Taken true dictionary.now long.now × Taken false dictionary.now sent.now }
    requires placed { Placed long_form (kernel_of false dictionary.now sent.now) places.now }
    ensures { result ≡ agreed (program (kernel_of true dictionary.now long.now)) (program (kernel_of false dictionary.now sent.now)) }
{
    // The count is the answer past the loop's end too, where `enumerate` has none left to give.
    let mut n: u64 = 0;
    for i in Instructions::of(dictionary, sent) {
        let at = 16 * (n as usize);
        if long.len() <= at {
            return n;
        }
        let w = rewrite(places, i, 2 * n, 2 * n + 2);
        if w != read16(long, at) {
            return n;
        }
        n += 1;
    }
    n
}
