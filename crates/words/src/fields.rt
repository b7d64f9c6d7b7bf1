// The fields of a word that are judged or executed, one function a field.
// A field is the number in its bits, as in the paper, whose definitions answer every number: `compares`, `modified`, `sign_modified`, `predicate`, `enabled`, `condition_served` of a condition, a modifier,
// PredCtrl, PredInv and WECtrl. So do the functions that are said of these (`compare`, `modify`, `modify_pattern`, `predicate_mask`, `enable_mask`); words that are no instructions have codes without a
// meaning too, for which an enum would need cases. Source and word go in two, here and in the crates above, as in the paper: most that is said of a word asks no source.
ghost use Rattle.std.specs.Prelude.{◌≡◌, ◌+◌, ◌<◌, ◌≤◌, ◌^◌};
ghost use Rattle.paper.specs.Bits.{bits};
ghost use Rattle.paper.specs.Expand.{is_short};
ghost use Rattle.paper.specs.Operation.{operation};
ghost use Rattle.paper.specs.Word.{acc_wr_ctrl, access_mode, cmpt_ctrl, cond_modifier, debug_ctrl, dep_ctrl, exec_size, flag_choice, opcode, pred_ctrl, pred_inv, qtr_ctrl, saturate, thread_ctrl, we_ctrl};
ghost use Rattle.paper.specs.Word.{dst_addr_mode, dst_file, dst_register, dst_stride, dst_subregister, dst_type};
ghost use Rattle.paper.specs.Word.{immediate_form, is_immediate, is_null, shift_of, src_addr_mode, src_field, src_file, src_horz_stride, src_modifier, src_register, src_subregister, src_type, src_vert_stride, src_width};
ghost use Rattle.words.specs.Operations.{operation_is};
ghost use Rattle.words.specs.Words.{to_word, source_is};

use crate::bytes::Word;
use crate::operation::{Operation, operation_of};

// The first or the second source.
#[derive(Clone, Copy, Debug, PartialEq, Eq)]
pub enum Source {
    First,
    Second,
}

// ---- any field

// The n bits of x from bit k on.
pub fn part(x: u64, k: u32, n: u32) -> u64
    requires { (k < 64) × (n < 64) }
    ensures { (result ≡ bits x k n) × (result < 2 ^ n) }
{
    (x >> k) % (1 << n)
}

// The n bits of a word from bit k of its low half on.
pub(crate) fn low(w: Word, k: u32, n: u32) -> u64
    requires { (k + n ≤ 64) × (k < 64) × (n < 64) }
    ensures { (result ≡ bits (to_word w) k n) × (result < 2 ^ n) }
{
    part(w.lo, k, n)
}

// The n bits of a word from bit k of its high half on.
pub(crate) fn high(w: Word, k: u32, n: u32) -> u64
    requires { (k < 64) × (n < 64) }
    ensures { (result ≡ bits (to_word w) (64 + k) n) × (result < 2 ^ n) }
{
    part(w.hi, k, n)
}

// The n bits from bit k of a source's own half of the high half on.
pub(crate) fn of_source(x: Source, w: Word, k: u32, n: u32) -> u64
    requires { (k < 32) × (n < 64) }
    ensures { (result ≡ bits (to_word w) (64 + k + shift_of (source_is x)) n) × (result < 2 ^ n) }
{
    match x {
        Source::First => high(w, k, n),
        Source::Second => high(w, k + 32, n),
    }
}

// ---- control and destination

// Opcode.
pub fn opcode(w: Word) -> u64
    ensures { (result ≡ opcode (to_word w)) × (result < 128) }
{
    low(w, 0, 7)
}

// AccessMode.
pub fn access_mode(w: Word) -> u64
    ensures { (result ≡ access_mode (to_word w)) × (result < 2) }
{
    low(w, 8, 1)
}

// WECtrl: 1 lets every channel work.
pub fn we_ctrl(w: Word) -> u64
    ensures { (result ≡ we_ctrl (to_word w)) × (result < 2) }
{
    low(w, 9, 1)
}

// DepCtrl.
pub fn dep_ctrl(w: Word) -> u64
    ensures { (result ≡ dep_ctrl (to_word w)) × (result < 4) }
{
    low(w, 10, 2)
}

// QtrCtrl, the quarter.
pub fn qtr_ctrl(w: Word) -> u64
    ensures { (result ≡ qtr_ctrl (to_word w)) × (result < 4) }
{
    low(w, 12, 2)
}

// ThreadCtrl.
pub fn thread_ctrl(w: Word) -> u64
    ensures { (result ≡ thread_ctrl (to_word w)) × (result < 4) }
{
    low(w, 14, 2)
}

// PredCtrl.
pub fn pred_ctrl(w: Word) -> u64
    ensures { (result ≡ pred_ctrl (to_word w)) × (result < 16) }
{
    low(w, 16, 4)
}

// PredInv.
pub fn pred_inv(w: Word) -> u64
    ensures { (result ≡ pred_inv (to_word w)) × (result < 2) }
{
    low(w, 20, 1)
}

// ExecSize, a code.
pub fn exec_size(w: Word) -> u64
    ensures { (result ≡ exec_size (to_word w)) × (result < 8) }
{
    low(w, 21, 3)
}

// CondModifier, the condition code.
pub fn cond_modifier(w: Word) -> u64
    ensures { (result ≡ cond_modifier (to_word w)) × (result < 16) }
{
    low(w, 24, 4)
}

// AccWrCtrl.
pub fn acc_wr_ctrl(w: Word) -> u64
    ensures { (result ≡ acc_wr_ctrl (to_word w)) × (result < 2) }
{
    low(w, 28, 1)
}

// CmptCtrl, which marks a short word.
pub fn cmpt_ctrl(w: Word) -> u64
    ensures { (result ≡ cmpt_ctrl (to_word w)) × (result < 2) }
{
    low(w, 29, 1)
}

// DebugCtrl.
pub fn debug_ctrl(w: Word) -> u64
    ensures { (result ≡ debug_ctrl (to_word w)) × (result < 2) }
{
    low(w, 30, 1)
}

// Saturate.
pub fn saturate(w: Word) -> u64
    ensures { (result ≡ saturate (to_word w)) × (result < 2) }
{
    low(w, 31, 1)
}

// The destination's register file.
pub fn dst_file(w: Word) -> u64
    ensures { (result ≡ dst_file (to_word w)) × (result < 4) }
{
    low(w, 32, 2)
}

// The destination's type.
pub fn dst_type(w: Word) -> u64
    ensures { (result ≡ dst_type (to_word w)) × (result < 8) }
{
    low(w, 34, 3)
}

// The destination's subregister.
pub fn dst_subregister(w: Word) -> u64
    ensures { (result ≡ dst_subregister (to_word w)) × (result < 32) }
{
    low(w, 48, 5)
}

// The destination's register.
pub fn dst_register(w: Word) -> u64
    ensures { (result ≡ dst_register (to_word w)) × (result < 256) }
{
    low(w, 53, 8)
}

// The destination's stride, a code.
pub fn dst_stride(w: Word) -> u64
    ensures { (result ≡ dst_stride (to_word w)) × (result < 4) }
{
    low(w, 61, 2)
}

// The destination's AddrMode.
pub fn dst_addr_mode(w: Word) -> u64
    ensures { (result ≡ dst_addr_mode (to_word w)) × (result < 2) }
{
    low(w, 63, 1)
}

// The destination is null.
// (As `dst_is_a0` and `src_is_a0`: two comparisons with the paper's numbers, which a function of file and register would only name.)
pub fn is_null(w: Word) -> bool
    ensures { result ≡ is_null (to_word w) }
{
    dst_file(w) == 0 && dst_register(w) == 0
}

// The flag register that a word chooses.
pub fn flag_choice(w: Word) -> u64
    ensures { (result ≡ flag_choice (to_word w)) × (result < 2) }
{
    high(w, 25, 1)
}

// ---- sources

// A source's register file.
pub fn src_file(x: Source, w: Word) -> u64
    ensures { (result ≡ src_file (source_is x) (to_word w)) × (result < 4) }
{
    match x {
        Source::First => low(w, 37, 2),
        Source::Second => low(w, 42, 2),
    }
}

// A source's type.
pub fn src_type(x: Source, w: Word) -> u64
    ensures { (result ≡ src_type (source_is x) (to_word w)) × (result < 8) }
{
    match x {
        Source::First => low(w, 39, 3),
        Source::Second => low(w, 44, 3),
    }
}

// A source's subregister.
pub fn src_subregister(x: Source, w: Word) -> u64
    ensures { (result ≡ src_subregister (source_is x) (to_word w)) × (result < 32) }
{
    of_source(x, w, 0, 5)
}

// A source's register.
pub fn src_register(x: Source, w: Word) -> u64
    ensures { (result ≡ src_register (source_is x) (to_word w)) × (result < 256) }
{
    of_source(x, w, 5, 8)
}

// A source's modifier.
pub fn src_modifier(x: Source, w: Word) -> u64
    ensures { (result ≡ src_modifier (source_is x) (to_word w)) × (result < 4) }
{
    of_source(x, w, 13, 2)
}

// A source's AddrMode.
pub fn src_addr_mode(x: Source, w: Word) -> u64
    ensures { (result ≡ src_addr_mode (source_is x) (to_word w)) × (result < 2) }
{
    of_source(x, w, 15, 1)
}

// A source's HorzStride, a code.
pub fn src_horz_stride(x: Source, w: Word) -> u64
    ensures { (result ≡ src_horz_stride (source_is x) (to_word w)) × (result < 4) }
{
    of_source(x, w, 16, 2)
}

// A source's Width, a code.
pub fn src_width(x: Source, w: Word) -> u64
    ensures { (result ≡ src_width (source_is x) (to_word w)) × (result < 8) }
{
    of_source(x, w, 18, 3)
}

// A source's VertStride, a code.
pub fn src_vert_stride(x: Source, w: Word) -> u64
    ensures { (result ≡ src_vert_stride (source_is x) (to_word w)) × (result < 16) }
{
    of_source(x, w, 21, 4)
}

// The twelve bits that say how a source is read: modifier, AddrMode, HorzStride, Width, VertStride.
pub fn src_field(x: Source, w: Word) -> u64
    ensures { (result ≡ src_field (source_is x) (to_word w)) × (result < 4096) }
{
    of_source(x, w, 13, 12)
}

// The source is an immediate.
pub fn is_immediate(x: Source, w: Word) -> bool
    ensures { result ≡ is_immediate (source_is x) (to_word w) }
{
    src_file(x, w) == 3
}

// Immediate form of a word whose low half is `lo`.
#[tactic(auto, unfolding(paper::specs::Word::immediate_form))]
pub fn form_of(lo: u64) -> bool
    ensures { result ≡ immediate_form lo }
{
    part(lo, 37, 2) == 3 || part(lo, 42, 2) == 3
}

// Either source is an immediate.
pub fn immediate_form(w: Word) -> bool
    ensures { result ≡ immediate_form (to_word w) }
{
    form_of(w.lo)
}

// ---- reserved bits, an immediate's halves, distances

// Bit 7, which is reserved.
pub fn bit_7(w: Word) -> u64
    ensures { (result ≡ bits (to_word w) 7 1) × (result < 2) }
{
    low(w, 7, 1)
}

// Bit 47, which is reserved but in branches.
pub fn bit_47(w: Word) -> u64
    ensures { (result ≡ bits (to_word w) 47 1) × (result < 2) }
{
    low(w, 47, 1)
}

// Bits 95:90, which are reserved but in branches.
pub fn bits_90(w: Word) -> u64
    ensures { (result ≡ bits (to_word w) 90 6) × (result < 64) }
{
    high(w, 26, 6)
}

// Bits 127:121, which are reserved outside immediate form.
pub fn bits_121(w: Word) -> u64
    ensures { (result ≡ bits (to_word w) 121 7) × (result < 128) }
{
    high(w, 57, 7)
}

// Bits 111:96, the low half of an immediate, and JIP.
pub fn low_half(w: Word) -> u64
    ensures { (result ≡ bits (to_word w) 96 16) × (result < 65536) }
{
    high(w, 32, 16)
}

// Bits 127:112, its high half, and UIP.
pub fn high_half(w: Word) -> u64
    ensures { (result ≡ bits (to_word w) 112 16) × (result < 65536) }
{
    high(w, 48, 16)
}

// Bits 63:48, the distance of if, else, endif and while.
pub fn short_distance(w: Word) -> u64
    ensures { (result ≡ bits (to_word w) 48 16) × (result < 65536) }
{
    low(w, 48, 16)
}

// Bits 127:96, jmpi's distance.
pub fn long_distance(w: Word) -> u64
    ensures { (result ≡ bits (to_word w) 96 32) × (result < 2 ^ 32) }
{
    high(w, 32, 32)
}

// ---- operations

// The number, or the word whose low half it is, is marked as short.
pub fn is_short(s: u64) -> bool
    ensures { result ≡ is_short s }
{
    part(s, 29, 1) == 1
}

// The operation of a number, of which the low seven bits are the opcode.
pub fn operation_in(s: u64) -> Operation
    ensures { operation_is result ≡ operation s }
{
    operation_of(part(s, 0, 7))
}

// The operation of a word.
pub fn operation(w: Word) -> Operation
    ensures { operation_is result ≡ operation (to_word w) }
{
    operation_of(opcode(w))
}
