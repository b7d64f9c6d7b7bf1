// Regions: where an operand's elements lie, and at which byte each channel's starts.
ghost use Rattle.std.specs.Prelude.{◌≡◌, ◌+◌, ◌*◌, ◌/◌, ◌%◌, ◌^◌, ◌<◌, ◌≤◌};
ghost use Rattle.paper.specs.Word.{dst_is_a0, src_is_a0};
ghost use Rattle.paper.specs.Region.{count_of, stride_of, element_at, src_region};
ghost use Rattle.laws.specs.Regions.{dst_region};
ghost use Rattle.words.specs.Words.{to_word, source_is};
ghost use Rattle.words.specs.Regions.{region_is, Small};

use crate::addresses::register_at;
use crate::bytes::Word;
use crate::fields::{
    Source, dst_register, dst_stride, dst_subregister, dst_type, src_horz_stride, src_register,
    src_subregister, src_type, src_vert_stride, src_width,
};
use crate::types::size_of;

// The byte at which a region begins, its strides from row to row and from channel to channel, in elements, the code of a row's width, and an element's bytes.
// That its numbers are small (`Small`) is a clause, and no ghost field: `gather` and `float_gather` are handed the numbers one by one (docs/DECISIONS.md, 97) and would have to prove it again.
#[derive(Clone, Copy)]
pub struct Region {
    pub origin: usize,
    pub vert: usize,
    pub code: usize,
    pub horz: usize,
    pub size: usize,
}

// What an ExecSize or Width code means.
pub fn count_of(code: u64) -> usize
    requires { code < 8 }
    ensures { (result ≡ count_of code) × (0 < result) × (result ≤ 128) }
{
    1 << code
}

// What a stride code means.
pub fn stride_of(code: u64) -> usize
    requires { code < 16 }
    ensures { (result ≡ stride_of code) × (result < 32768) }
{
    (1 << code) / 2
}

// The region of a source; whether it is a0 is told. Where it is known not to be, nothing is asked for that.
pub fn src_region(a0: bool, x: Source, w: Word) -> Region
    requires { a0 ≡ src_is_a0 (source_is x) (to_word w) }
    ensures { (region_is result ≡ src_region (source_is x) (to_word w)) × Small result }
{
    let origin = (register_at(a0, src_register(x, w)) + src_subregister(x, w)) as usize;
    let vert = stride_of(src_vert_stride(x, w));
    let code = src_width(x, w) as usize;
    let horz = stride_of(src_horz_stride(x, w));
    let size = size_of(src_type(x, w)) as usize;
    Region {
        origin,
        vert,
        code,
        horz,
        size,
    }
}

// The destination's region, as told as a source's: each channel is a row.
pub fn dst_region(a0: bool, w: Word) -> Region
    requires { a0 ≡ dst_is_a0 (to_word w) }
    ensures { (region_is result ≡ dst_region (to_word w)) × Small result }
{
    let origin = (register_at(a0, dst_register(w)) + dst_subregister(w)) as usize;
    let vert = stride_of(dst_stride(w));
    let size = size_of(dst_type(w)) as usize;
    Region {
        origin,
        vert,
        code: 0,
        horz: 0,
        size,
    }
}

// How far channel n's element lies from the region's first byte. The width is known by its code: the row is a shift, not a division.
fn offset_of(vert: usize, code: usize, horz: usize, size: usize, n: usize) -> usize
    requires { (vert < 32768) × (code < 8) × (horz < 32768) × (size ≤ 4) × (n < 128) }
    ensures { (result ≡ (n / 2 ^ code * vert + n % 2 ^ code * horz) * size) × (result ≤ 33291272) }
{
    let row = n >> code;
    let column = n - (row << code);
    (row * vert + column * horz) * size
}

// The first byte of channel n's element.
pub fn element_at(r: Region, n: usize) -> usize
    requires { Small r × (n < 128) }
    ensures { (result ≡ element_at (region_is r) n) × (result < 134217728) }
{
    r.origin + offset_of(r.vert, r.code, r.horz, r.size, n)
}
