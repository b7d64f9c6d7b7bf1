// Elements of 1, 2 or 4 bytes read from the registers.
ghost use Rattle.std.specs.Prelude.{◌≡◌, ◌+◌, ◌≤◌, length};
ghost use Rattle.paper.specs.Bits.{number_at};
ghost use Rattle.lanes.specs.Sizes.{Size};

use numbers::{read1, read2, read4};

// The element of `size` bytes from byte `from` on.
pub fn read_element(registers: &[u8], from: usize, size: usize) -> u64
    requires { Size size × (from + size ≤ length registers.now) }
    ensures { result ≡ number_at registers.now from size }
{
    match size {
        1 => read1(registers, from),
        2 => read2(registers, from),
        _ => read4(registers, from),
    }
}
