// Rules 6 and 7: reserved bits, and the fields that are served.
ghost use Rattle.std.specs.Prelude.{false, ◌≡◌};
ghost use Rattle.paper.specs.Operation.{jmpi, is_mov, is_branch, operation};
ghost use Rattle.paper.specs.Enable.{group_of};
ghost use Rattle.paper.specs.Legal.{reserved_set, quarter_served, predicate_served, condition_served, control_served, dst_served, src_served, uses_a0, moves_words, uses_floats, plain_served, structured, own_needs, branch_served};
ghost use Rattle.words.specs.Operations.{plain_is, branch_is};
ghost use Rattle.words.specs.Words.{to_word, source_is};
ghost use Rattle.words.specs.Usual.{Usual};
ghost use Rattle.judge.specs.Rules.{a0_served, floats_allowed, operands_served};

use crate::sources::any_source;
use words::addresses::{dst_is_a0, src_is_a0};
use words::bytes::Word;
use words::fields::{
    Source, acc_wr_ctrl, access_mode, bit_7, bit_47, bits_90, bits_121, cond_modifier,
    dst_addr_mode, dst_file, dst_type, exec_size, immediate_form, is_immediate, is_null, pred_ctrl,
    qtr_ctrl, saturate, src_addr_mode, src_file, src_type, we_ctrl,
};
use words::floats::{dst_is_float, src_is_float};
use words::operation::{Branch, Plain};
use words::region::count_of;
use words::traits::{compares, saturates, takes_floats};

// 6: bit 7; for all but branches, which are told, 47 or 95:90, or 127:121 outside immediate form.
#[tactic(auto, unfolding(paper::specs::Legal::reserved_set))]
pub(crate) fn reserved_set(jumps: bool, w: Word) -> bool
    requires { jumps ≡ is_branch (operation (to_word w)) }
    ensures { result ≡ reserved_set (to_word w) }
{
    let top = !immediate_form(w) & (bits_121(w) != 0);
    let further = (bit_47(w) == 1) | (bits_90(w) != 0) | top;
    (bit_7(w) == 1) | (!jumps & further)
}

// ---- 7: control fields

// Quarter 0; or 1 with size 8.
pub fn quarter_served(w: Word) -> bool
    ensures { result ≡ quarter_served (to_word w) }
{
    let quarter = qtr_ctrl(w);
    (quarter == 0) | ((quarter == 1) & (exec_size(w) == 3))
}

// How many channels vote together, by PredCtrl.
#[tactic(auto, unfolding(paper::specs::Enable::group_of))]
fn group_of(control: u64) -> usize
    ensures { result ≡ group_of control }
{
    match control {
        0..=3 => 1,
        4..=5 => 2,
        6..=7 => 4,
        8..=9 => 8,
        _ => 16,
    }
}

// PredCtrl 0 or 1; or 4 to 11, with groups that are no larger than ExecSize.
fn predicate_served(w: Word) -> bool
    ensures { result ≡ predicate_served (to_word w) }
{
    let control = pred_ctrl(w);
    let fits = group_of(control) <= count_of(exec_size(w));
    let votes = (4..=11).contains(&control) & fits;
    (control <= 1) | votes
}

// Condition codes 1 to 6 on cmp, 0 elsewhere.
pub fn condition_served(comparing: bool, code: u64) -> bool
    ensures { result ≡ condition_served comparing code }
{
    if comparing {
        (1..=6).contains(&code)
    } else {
        code == 0
    }
}

// The control fields that every operation but nop is judged by.
#[tactic(auto, unfolding(paper::specs::Legal::control_served))]
pub fn control_served(comparing: bool, saturating: bool, w: Word) -> bool
    ensures { result ≡ control_served comparing saturating (to_word w) }
{
    let last = (saturate(w) == 0) | saturating;
    let condition = condition_served(comparing, cond_modifier(w)) & last;
    let predicate = predicate_served(w) & condition;
    let size = (exec_size(w) <= 4) & quarter_served(w) & predicate;
    (access_mode(w) == 0) & (acc_wr_ctrl(w) == 0) & size
}

// ---- 7: operands

// UNUSUAL tells whether the word is: what few words need is asked of these alone. Each test says so in a clause: of a type that said it for all, each would
// have to take its word out again.

// Registers, named directly or by address; or null or a0, named directly; of a listed type.
#[tactic(auto, unfolding(paper::specs::Legal::dst_served))]
fn dst_served<const UNUSUAL: bool>(w: Word) -> bool
    requires { UNUSUAL ≡ false → Usual (to_word w) }
    ensures { result ≡ dst_served (to_word w) }
{
    let direct = dst_addr_mode(w) == 0;
    let a0 = UNUSUAL & dst_is_a0(w);
    let named = (is_null(w) | a0) & direct;
    let float = UNUSUAL & dst_is_float(w);
    let listed = (dst_type(w) <= 5) | float;
    ((dst_file(w) == 1) | named) & listed
}

// An immediate of a listed type; or, of a listed type, a register, named directly or by address, or a0, named directly.
fn src_served<const UNUSUAL: bool>(x: Source, w: Word) -> bool
    requires { UNUSUAL ≡ false → Usual (to_word w) }
    ensures { result ≡ src_served (to_word w) (source_is x) }
{
    let kind = src_type(x, w);
    let a0 = UNUSUAL & src_is_a0(x, w);
    let named = a0 & (src_addr_mode(x, w) == 0);
    let listed = (kind <= 5) | (UNUSUAL & (kind == 7));
    let register = ((src_file(x, w) == 1) | named) & listed;
    let floats = UNUSUAL & ((kind == 5) | (kind == 7));
    let immediate = (kind <= 3) | floats;
    if is_immediate(x, w) {
        immediate
    } else {
        register
    }
}

// Some operand is a0.
#[tactic(auto, using(crate::specs::Rules::uses_a0_lem))]
fn uses_a0(p: Plain, w: Word) -> bool
    ensures { result ≡ uses_a0 (plain_is p) (to_word w) }
{
    let first = src_is_a0(Source::First, w);
    let second = src_is_a0(Source::Second, w);
    dst_is_a0(w) | any_source(p, first, second)
}

// The operation is mov.
fn is_mov(p: Plain) -> bool
    ensures { result ≡ is_mov (plain_is p) }
{
    matches!(p, Plain::Mov)
}

// The operation is mov, and its operands are all of type uw.
#[tactic(auto, using(crate::specs::Rules::moves_words_lem))]
fn moves_words(p: Plain, w: Word) -> bool
    ensures { result ≡ moves_words (plain_is p) (to_word w) }
{
    let first = src_type(Source::First, w) != 2;
    let second = src_type(Source::Second, w) != 2;
    let words = (dst_type(w) == 2) & !any_source(p, first, second);
    is_mov(p) & words
}

// No operand is a0, or words are moved.
fn a0_served(p: Plain, w: Word) -> bool
    ensures { result ≡ a0_served (plain_is p) (to_word w) }
{
    !uses_a0(p, w) || moves_words(p, w)
}

// Some operand is a float.
#[tactic(auto, using(crate::specs::Rules::uses_floats_lem))]
pub(crate) fn uses_floats(p: Plain, w: Word) -> bool
    ensures { result ≡ uses_floats (plain_is p) (to_word w) }
{
    let first = src_is_float(Source::First, w);
    let second = src_is_float(Source::Second, w);
    dst_is_float(w) | any_source(p, first, second)
}

// No operand is a float, or floats are served on the operation, and Saturate is clear.
#[tactic(auto, unfolding(paper::specs::Legal::floats_served))]
fn floats_allowed(p: Plain, w: Word) -> bool
    ensures { result ≡ floats_allowed (plain_is p) (to_word w) }
{
    !uses_floats(p, w) || (takes_floats(p) & (saturate(w) == 0))
}

// The operands of an operation; in an unusual word a0 and floats may be among them.
#[tactic(auto, using(crate::specs::Rules::served_usual), unfolding(crate::specs::Rules::operands_served))]
fn operands_served<const UNUSUAL: bool>(p: Plain, w: Word) -> bool
    requires { UNUSUAL ≡ false → Usual (to_word w) }
    ensures { result ≡ operands_served (plain_is p) (to_word w) }
{
    let first = !src_served::<UNUSUAL>(Source::First, w);
    let second = !src_served::<UNUSUAL>(Source::Second, w);
    let named = dst_served::<UNUSUAL>(w) & !any_source(p, first, second);
    if UNUSUAL {
        named & a0_served(p, w) & floats_allowed(p, w)
    } else {
        named
    }
}

// Every field that an operation with operands is judged by.
#[tactic(auto, using(crate::specs::Rules::plain_served_lem))]
pub(crate) fn plain_served<const UNUSUAL: bool>(p: Plain, w: Word) -> bool
    requires { UNUSUAL ≡ false → Usual (to_word w) }
    ensures { result ≡ plain_served (plain_is p) (to_word w) }
{
    control_served(compares(p), saturates(p), w) & operands_served::<UNUSUAL>(p, w)
}

// ---- 7: branches

// Size 16, quarter 0, WECtrl 0.
pub fn structured(w: Word) -> bool
    ensures { result ≡ structured (to_word w) }
{
    (exec_size(w) == 4) & (qtr_ctrl(w) == 0) & (we_ctrl(w) == 0)
}

// Size 1, which leaves PredCtrl 0 and 1, and a d immediate as src1.
pub fn jumping(w: Word) -> bool
    ensures { result ≡ own_needs jmpi (to_word w) }
{
    let dword = src_type(Source::Second, w) == 1;
    (exec_size(w) == 0) & is_immediate(Source::Second, w) & dword
}

// What a branch needs of its own.
pub fn own_needs(b: Branch, w: Word) -> bool
    ensures { result ≡ own_needs (branch_is b) (to_word w) }
{
    match b {
        Branch::Jmpi => jumping(w),
        Branch::If | Branch::Else | Branch::Endif | Branch::While | Branch::Break | Branch::Cont =>
            structured(w),
    }
}

// Branches have no operand but jmpi's src1.
#[tactic(auto, unfolding(paper::specs::Legal::branch_served))]
pub fn branch_served(b: Branch, w: Word) -> bool
    ensures { result ≡ branch_served (branch_is b) (to_word w) }
{
    control_served(false, false, w) & own_needs(b, w)
}
