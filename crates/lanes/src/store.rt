// Elements of 1, 2 or 4 bytes stored to the registers.
ghost use Rattle.std.specs.Prelude.{◌≡◌, ◌+◌, ◌≤◌, length};
ghost use Rattle.paper.specs.Bits.{put_at};
ghost use Rattle.lanes.specs.Sizes.{Size};

use numbers::write;

// The `size` lowest bytes of v stored from byte `from` on.
pub(crate) fn write_element(registers: &mut [u8], from: usize, size: usize, v: u64)
    requires { Size size × (from + size ≤ length registers.old) }
    ensures { registers.new ≡ put_at registers.old from size v }
{
    match size {
        1 => write::<1>(registers, from, v),
        2 => write::<2>(registers, from, v),
        _ => write::<4>(registers, from, v),
    }
}
