// The elements of a region, read by its shape.
ghost use Rattle.std.specs.Prelude.{◌≡◌, true, ℕ, ◌+◌, ◌^◌, ◌≤◌, ◌<◌, length};
ghost use Rattle.paper.specs.Value.{size_of};
ghost use Rattle.laws.specs.Values.{IsWhole};
ghost use Rattle.paper.specs.Region.{element_at};
ghost use Rattle.words.specs.Regions.{region_is, Small};
ghost use Rattle.operands.specs.Reads.{ElementsRead};
ghost use Rattle.operands.specs.Shapes.{region_from};

use crate::beside::beside;
use crate::read::read_as;
use crate::rows::rows;
use crate::spread::spread;
use words::region::Region;

// The elements lie side by side: HorzStride is 1, and VertStride is the width.
pub(crate) fn is_beside(r: Region) -> bool
    requires { Small r }
    ensures { result ≡ true → (r.horz ≡ 1) × (r.vert ≡ 2 ^ r.code) }
{
    r.horz == 1 && r.vert == 1 << r.code
}

// All channels read one element: both strides are 0.
pub(crate) fn is_single(r: Region) -> bool
    ensures { result ≡ true → (r.horz ≡ 0) × (r.vert ≡ 0) }
{
    r.horz == 0 && r.vert == 0
}

// The elements of the n first channels, as numbers. The region is handed over number by number, since a struct would go through memory.
pub(crate) fn gather(
    origin: usize,
    vert: usize,
    code: usize,
    horz: usize,
    size: usize,
    kind: u64,
    n: usize,
    registers: &[u8],
    values: &mut [u64; 16],
)
    requires small { Small (region_from origin vert code horz size) × (size ≡ size_of kind) × (0 < n) × (n ≤ 16) × IsWhole kind }
    requires by_index { (k : ℕ) → k < n → element_at (region_is (region_from origin vert code horz size)) k + size ≤ length registers.now }
    ensures { ElementsRead registers.now (element_at (region_is (region_from origin vert code horz size))) kind size n values.old values.new }
{
    let r = Region {
        origin,
        vert,
        code,
        horz,
        size,
    };
    if is_beside(r) {
        beside(registers, origin, kind, size, n, values)
    } else if is_single(r) {
        let number = read_as(registers, origin, kind, size);
        spread(number, n, values)
    } else {
        rows(registers, r, kind, n, values)
    }
}
