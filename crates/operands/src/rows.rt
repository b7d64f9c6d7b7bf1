// Elements of any region, row by row.
ghost use Rattle.std.specs.Prelude.{◌≡◌, ℕ, ◌+◌, ◌≤◌, ◌<◌, length};
ghost use Rattle.paper.specs.Value.{size_of};
ghost use Rattle.laws.specs.Values.{IsWhole};
ghost use Rattle.paper.specs.Region.{element_at};
ghost use Rattle.words.specs.Regions.{region_is, Small};
ghost use Rattle.operands.specs.Reads.{ElementsRead};

use crate::read::read_as;
use words::region::{Region, element_at};

// The elements of the n first channels of a region, as numbers. The size of the region's elements is given beside it.
pub(crate) fn lines(
    registers: &[u8],
    r: Region,
    kind: u64,
    size: usize,
    n: usize,
    values: &mut [u64; 16],
)
    requires small { Small r × (r.size ≡ size) × (size ≡ size_of kind) × (n ≤ 16) × IsWhole kind }
    requires by_index { (k : ℕ) → k < n → element_at (region_is r) k + size ≤ length registers.now }
    ensures { ElementsRead registers.now (element_at (region_is r)) kind size n values.old values.new }
{
    for k in 0..n {
        let from = element_at(r, k);
        values[k] = read_as(registers, from, kind, size);
    }
}

// The same, with a loop of its own for each size.
pub(crate) fn rows(registers: &[u8], r: Region, kind: u64, n: usize, values: &mut [u64; 16])
    requires small { Small r × (r.size ≡ size_of kind) × (n ≤ 16) × IsWhole kind }
    requires by_index { (k : ℕ) → k < n → element_at (region_is r) k + r.size ≤ length registers.now }
    ensures { ElementsRead registers.now (element_at (region_is r)) kind r.size n values.old values.new }
{
    match r.size {
        4 => lines(registers, r, kind, 4, n, values),
        2 => lines(registers, r, kind, 2, n, values),
        _ => lines(registers, r, kind, 1, n, values),
    }
}
