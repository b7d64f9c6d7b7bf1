// The dictionary, lent as bytes: its 128 numbers, and rule 2.
ghost use Rattle.std.specs.Prelude.{◌≡◌, ◌<◌, ◌≤◌, ◌^◌};
ghost use Rattle.paper.specs.Dictionary.{dictionary_of, in_range};
ghost use Rattle.short.specs.Ranges.{table_fits};

use words::bytes::read4;
use words::limits::DICTIONARY_BYTES;

// Number i of the dictionary.
pub(crate) fn number(dictionary: &[u8; DICTIONARY_BYTES], i: usize) -> u64
    requires { i < 128 }
    ensures { (result ≡ dictionary_of dictionary.now i) × (result < 2 ^ 32) }
{
    read4(dictionary, 4 * i)
}

// The 32 numbers from `base` on are below `most`.
fn table_fits(dictionary: &[u8; DICTIONARY_BYTES], base: usize, most: u64) -> bool
    requires { base ≤ 96 }
    ensures { result ≡ table_fits (dictionary_of dictionary.now) base most 32 }
{
    (0..32).all(|i| number(dictionary, base + i) < most)
}

// Each number fits its table.
pub fn in_range(dictionary: &[u8; DICTIONARY_BYTES]) -> bool
    ensures { result ≡ in_range (dictionary_of dictionary.now) }
{
    let control = table_fits(dictionary, 0, 0x2_0000);
    let datatype = table_fits(dictionary, 32, 0x4_0000);
    let subregister = table_fits(dictionary, 64, 0x8000);
    let source = table_fits(dictionary, 96, 0x1000);
    control & datatype & subregister & source
}
