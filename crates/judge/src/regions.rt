// Rules 9, 10 and 11: the register operands' shapes, alignment and reach.
ghost use Rattle.std.specs.Prelude.{true, false, ◌≡◌, ◌-◌, ◌<◌, ◌≤◌};
ghost use Rattle.paper.specs.Legal.{plain_served, shape_broken, unaligned, alignment_broken, bytes_in, too_far, region_too_far, last_channel, reach_broken};
ghost use Rattle.words.specs.Operations.{plain_is};
ghost use Rattle.words.specs.Words.{to_word, source_is};
ghost use Rattle.words.specs.Regions.{region_is, Small};
ghost use Rattle.words.specs.Usual.{Usual};
ghost use Rattle.judge.specs.Rules.{operand_test, look_refuses, dst_unaligned, src_unaligned, src_far, dst_far};

use crate::sources::any_source;
use table::regions::Regions;
use words::addresses::{dst_by_address, dst_is_a0, src_by_address, src_is_a0};
use words::bytes::Word;
use words::fields::{
    Source, dst_stride, dst_subregister, dst_type, exec_size, is_immediate, is_null, src_field,
    src_subregister, src_type,
};
use words::limits::{ADDRESS_BYTES, REGISTER_BYTES};
use words::operation::Plain;
use words::region::{Region, count_of, dst_region, element_at, src_region};
use words::types::size_of;

// The destination is not null and breaks a rule; or a source does that is read from registers.
pub fn some_operand(p: Plain, w: Word, dst: bool, first: bool, second: bool) -> bool
    ensures { result ≡ operand_test (plain_is p) (to_word w) dst first second }
{
    let one = !is_immediate(Source::First, w) & first;
    let two = !is_immediate(Source::Second, w) & second;
    (!is_null(w) & dst) | any_source(p, one, two)
}

// ---- 9

// A source's region does not pass at this size, by one look in the table. Where 7 has passed, the size has a meaning, and so 9 refuses it.
fn look_refuses(regions: &Regions, x: Source, w: Word) -> bool
    ensures { result ≡ look_refuses (source_is x) (to_word w) }
{
    !regions.passes(src_field(x, w), exec_size(w))
}

// 9, where 7 has passed: the destination's stride is 0, or a source's region is refused.
#[tactic(auto, using(crate::specs::Looks::look_rule))]
pub(crate) fn shape_broken(regions: &Regions, p: Plain, w: Word) -> bool
    requires { plain_served (plain_is p) (to_word w) ≡ true }
    ensures { result ≡ shape_broken (plain_is p) (to_word w) }
{
    let first = look_refuses(regions, Source::First, w);
    let second = look_refuses(regions, Source::Second, w);
    some_operand(p, w, dst_stride(w) == 0, first, second)
}

// ---- 10

// A subregister is no multiple of the element size. Of a size of 0, which no type has, only 0 is one.
pub fn is_unaligned(subregister: u64, size: u64) -> bool
    ensures { result ≡ unaligned subregister size }
{
    if size == 0 {
        subregister != 0
    } else {
        subregister % size != 0
    }
}

// UNUSUAL tells whether the word is: where it is not, a0 has no part, and nothing is asked for that. A clause says so, as in `served`.

// The destination's is none, and it is named directly.
fn dst_unaligned<const UNUSUAL: bool>(w: Word) -> bool
    requires { UNUSUAL ≡ false → Usual (to_word w) }
    ensures { result ≡ dst_unaligned (to_word w) }
{
    let broken = is_unaligned(dst_subregister(w), size_of(dst_type(w)));
    !(UNUSUAL & dst_by_address(w)) & broken
}

// A source's is none, and it is named directly.
fn src_unaligned<const UNUSUAL: bool>(x: Source, w: Word) -> bool
    requires { UNUSUAL ≡ false → Usual (to_word w) }
    ensures { result ≡ src_unaligned (source_is x) (to_word w) }
{
    let broken = is_unaligned(src_subregister(x, w), size_of(src_type(x, w)));
    !(UNUSUAL & src_by_address(x, w)) & broken
}

// 10: an operand that is named directly is misaligned.
#[tactic(auto, using(crate::specs::Rules::alignment_rule))]
pub fn alignment_broken<const UNUSUAL: bool>(p: Plain, w: Word) -> bool
    requires { UNUSUAL ≡ false → Usual (to_word w) }
    ensures { result ≡ alignment_broken (plain_is p) (to_word w) }
{
    let first = src_unaligned::<UNUSUAL>(Source::First, w);
    let second = src_unaligned::<UNUSUAL>(Source::Second, w);
    some_operand(p, w, dst_unaligned::<UNUSUAL>(w), first, second)
}

// ---- 11

// The number of the last channel.
pub fn last_channel(w: Word) -> usize
    ensures { (result ≡ last_channel (to_word w)) × (result < 128) }
{
    count_of(exec_size(w)) - 1
}

// How many bytes the file of an operand has: a0, or r0 to r127.
fn bytes_in(a0: bool) -> usize
    ensures { result ≡ bytes_in a0 }
{
    if a0 { ADDRESS_BYTES } else { REGISTER_BYTES }
}

// The first and the last byte lie in registers more than one apart, or past the file's bytes.
#[tactic(auto, unfolding(paper::specs::Legal::too_far))]
pub(crate) fn too_far(bytes: usize, origin: usize, element: usize, size: usize) -> bool
    requires { (origin < 16384) × (element < 134217728) × (size ≤ 4) }
    ensures { result ≡ too_far bytes origin element size }
{
    let last = (element + size).saturating_sub(1);
    (origin / 32 + 1 < last / 32) | (bytes <= last)
}

// A region does so from its first byte to the element of its last channel.
pub(crate) fn region_too_far(bytes: usize, r: Region, last: usize) -> bool
    requires { Small r × (last < 128) }
    ensures { result ≡ region_too_far bytes (region_is r) last }
{
    too_far(bytes, r.origin, element_at(r, last), r.size)
}

// A source reaches too far, and is named directly.
fn src_far<const UNUSUAL: bool>(x: Source, w: Word) -> bool
    requires { UNUSUAL ≡ false → Usual (to_word w) }
    ensures { result ≡ src_far (source_is x) (to_word w) }
{
    let a0 = UNUSUAL & src_is_a0(x, w);
    let far = region_too_far(bytes_in(a0), src_region(a0, x, w), last_channel(w));
    !(UNUSUAL & src_by_address(x, w)) & far
}

// The destination does, and is named directly.
#[tactic(auto, using(crate::specs::Rules::dst_far_lem))]
fn dst_far<const UNUSUAL: bool>(w: Word) -> bool
    requires { UNUSUAL ≡ false → Usual (to_word w) }
    ensures { result ≡ dst_far (to_word w) }
{
    let a0 = UNUSUAL & dst_is_a0(w);
    let far = region_too_far(bytes_in(a0), dst_region(a0, w), last_channel(w));
    !(UNUSUAL & dst_by_address(w)) & far
}

// 11: an operand that is named directly reaches too far.
#[tactic(auto, using(crate::specs::Rules::reach_rule))]
pub fn reach_broken<const UNUSUAL: bool>(p: Plain, w: Word) -> bool
    requires { UNUSUAL ≡ false → Usual (to_word w) }
    ensures { result ≡ reach_broken (plain_is p) (to_word w) }
{
    let first = src_far::<UNUSUAL>(Source::First, w);
    let second = src_far::<UNUSUAL>(Source::Second, w);
    some_operand(p, w, dst_far::<UNUSUAL>(w), first, second)
}
