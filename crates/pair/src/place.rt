// Where the instructions of the sent kernel come to stand if every word is long.
// Dictionary and kernel go in two: a pair has one dictionary and two kernels.
ghost use Rattle.std.specs.Prelude.{false};
ghost use Rattle.laws.specs.Names.{long_form};
ghost use Rattle.packer.specs.Forms.{kernel_of, Taken};
ghost use Rattle.packer.specs.Stages.{Placed};

use kernel::instructions::Instructions;
use words::limits::{DICTIONARY_BYTES, PLACES};

// Stores at each place at which an instruction starts, and at the end's, the place at which it comes to stand: twice the instruction's number.
pub(crate) fn place_long(
    dictionary: &[u8; DICTIONARY_BYTES],
    kernel: &[u8],
    places: &mut [u16; PLACES],
)
    requires { Taken false dictionary.now kernel.now }
    ensures { Placed long_form (kernel_of false dictionary.now kernel.now) places.new }
{
    let mut to: u16 = 0;
    for i in Instructions::of(dictionary, kernel) {
        places[i.place as usize] = to;
        to += 2;
    }
    places[kernel.len() / 8] = to;
}
