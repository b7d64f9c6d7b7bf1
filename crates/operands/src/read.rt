// One element of the registers, as a number.
ghost use Rattle.std.specs.Prelude.{◌≡◌, ◌+◌, ◌≤◌, ◌<◌, length};
ghost use Rattle.paper.specs.Value.{size_of};
ghost use Rattle.laws.specs.Values.{IsWhole};
ghost use Rattle.operands.specs.Reads.{ElementRead};

use element::value::load;
use lanes::load::read_element;

// The number that an element of a type means; its size is given beside the type.
pub(crate) fn read_as(registers: &[u8], from: usize, kind: u64, size: usize) -> u64
    requires { (size ≡ size_of kind) × (from + size ≤ length registers.now) × IsWhole kind }
    ensures { ElementRead registers.now from kind size result }
{
    load(kind, read_element(registers, from, size))
}
