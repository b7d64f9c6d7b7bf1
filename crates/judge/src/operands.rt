// Rule 8: the operands that an operation takes.
ghost use Rattle.std.specs.Prelude.{◌≡◌, false, ◌&&◌};
ghost use Rattle.paper.specs.Word.{src0, src1, is_immediate};
ghost use Rattle.paper.specs.Operation.{mul, shr, sel};
ghost use Rattle.paper.specs.Legal.{unequal_halves, bad_modifier, own_rule_broken, mixed, vector_too_short, operand_rule_broken};
ghost use Rattle.judge.specs.Rules.{whole_rule_broken, float_rule_broken};
ghost use Rattle.judge.specs.Sources.{any_source};
ghost use Rattle.words.specs.Operations.{plain_is};
ghost use Rattle.laws.specs.Sources.{reads_two};
ghost use Rattle.words.specs.Words.{to_word, source_is};
ghost use Rattle.words.specs.Usual.{Usual};

use crate::served::uses_floats;
use crate::sources::any_source;
use words::bytes::Word;
use words::fields::{
    Source, exec_size, high_half, is_immediate, low_half, pred_ctrl, src_modifier, src_type,
};
use words::floats::{dst_is_float, src_is_float, src_is_vector};
use words::operation::Plain;
use words::region::count_of;
use words::traits::{reads_two, takes_modifiers};

// A word immediate's two halves differ.
pub fn unequal_halves(x: Source, w: Word) -> bool
    ensures { result ≡ unequal_halves (to_word w) (source_is x) }
{
    let kind = src_type(x, w);
    let word = (2..=3).contains(&kind);
    let differ = low_half(w) != high_half(w);
    is_immediate(x, w) & word & differ
}

// A modifier on src0 where none is allowed: on an immediate, and on logic and shifts.
pub fn bad_first_modifier(p: Plain, w: Word) -> bool
    ensures { result ≡ bad_modifier (plain_is p) (to_word w) src0 }
{
    let some = src_modifier(Source::First, w) != 0;
    (is_immediate(Source::First, w) | !takes_modifiers(p)) & some
}

// The same on src1, which has none as an immediate.
// The two sources have a rule each: one function of the source would match on it, and have both bodies as its arms.
pub fn bad_second_modifier(p: Plain, w: Word) -> bool
    ensures { result ≡ bad_modifier (plain_is p) (to_word w) src1 }
{
    let some = src_modifier(Source::Second, w) != 0;
    !is_immediate(Source::Second, w) & !takes_modifiers(p) & some
}

// A source is a dword.
pub fn takes_dwords(w: Word) -> bool
    ensures { result ≡ own_rule_broken mul (to_word w) }
{
    (src_type(Source::First, w) < 2) | (src_type(Source::Second, w) < 2)
}

// src0 is signed.
pub fn takes_signed(w: Word) -> bool
    ensures { result ≡ own_rule_broken shr (to_word w) }
{
    let kind = src_type(Source::First, w);
    (kind < 6) & (kind % 2 == 1)
}

// There is no predicate to choose by.
pub fn unpredicated(w: Word) -> bool
    ensures { result ≡ own_rule_broken sel (to_word w) }
{
    pred_ctrl(w) == 0
}

// mul takes no dword sources, shr an unsigned and asr a signed src0, sel a predicate.
pub fn own_rule_broken(p: Plain, w: Word) -> bool
    ensures { result ≡ own_rule_broken (plain_is p) (to_word w) }
{
    match p {
        Plain::Mul => takes_dwords(w),
        Plain::Shr => takes_signed(w),
        Plain::Asr => !takes_signed(w),
        Plain::Sel => unpredicated(w),
        Plain::Mov
        | Plain::Not
        | Plain::And
        | Plain::Or
        | Plain::Xor
        | Plain::Shl
        | Plain::Cmp
        | Plain::Add
        | Plain::Avg => false,
    }
}

// An immediate stands elsewhere than as last source.
pub fn is_misplaced(p: Plain, w: Word) -> bool
    ensures { result ≡ (reads_two (plain_is p) && is_immediate src0 (to_word w)) }
{
    reads_two(p) & is_immediate(Source::First, w)
}

// Halves differ in a source that is read.
pub fn halves_broken(p: Plain, w: Word) -> bool
    ensures { result ≡ any_source (plain_is p) (unequal_halves (to_word w) src0) (unequal_halves (to_word w) src1) }
{
    any_source(
        p,
        unequal_halves(Source::First, w),
        unequal_halves(Source::Second, w),
    )
}

// A modifier is too many in a source that is read.
pub fn modifiers_broken(p: Plain, w: Word) -> bool
    ensures { result ≡ any_source (plain_is p) (bad_modifier (plain_is p) (to_word w) src0) (bad_modifier (plain_is p) (to_word w) src1) }
{
    any_source(p, bad_first_modifier(p, w), bad_second_modifier(p, w))
}

// An immediate that is not last, halves that differ, a modifier too many, or an operation's own rule: what is asked of every word.
#[tactic(auto, unfolding(crate::specs::Rules::whole_rule_broken))]
fn whole_rule_broken(p: Plain, w: Word) -> bool
    ensures { result ≡ whole_rule_broken (plain_is p) (to_word w) }
{
    let own = own_rule_broken(p, w);
    is_misplaced(p, w) | halves_broken(p, w) | modifiers_broken(p, w) | own
}

// Some operand is a float and some is none.
#[tactic(auto, using(crate::specs::Rules::mixed_rule))]
fn is_mixed(p: Plain, w: Word) -> bool
    ensures { result ≡ mixed (plain_is p) (to_word w) }
{
    let first = !src_is_float(Source::First, w);
    let second = !src_is_float(Source::Second, w);
    let other = !dst_is_float(w) | any_source(p, first, second);
    uses_floats(p, w) & other
}

// Four restricted floats for more than four channels.
fn vector_too_short(x: Source, w: Word) -> bool
    ensures { result ≡ vector_too_short (to_word w) (source_is x) }
{
    src_is_vector(x, w) & (4 < count_of(exec_size(w)))
}

// Floats are mixed with whole numbers, or restricted floats are too few.
#[tactic(auto, unfolding(crate::specs::Rules::float_rule_broken))]
fn float_rule_broken(p: Plain, w: Word) -> bool
    ensures { result ≡ float_rule_broken (plain_is p) (to_word w) }
{
    let first = vector_too_short(Source::First, w);
    let second = vector_too_short(Source::Second, w);
    is_mixed(p, w) | any_source(p, first, second)
}

// 8. Of a word that is not unusual nothing is asked for floats: no operand is one.
#[tactic(auto, using(crate::specs::Rules::operand_rule, crate::specs::Rules::operand_usual))]
pub fn operand_rule_broken<const UNUSUAL: bool>(p: Plain, w: Word) -> bool
    requires { UNUSUAL ≡ false → Usual (to_word w) }
    ensures { result ≡ operand_rule_broken (plain_is p) (to_word w) }
{
    let whole = whole_rule_broken(p, w);
    if UNUSUAL {
        whole | float_rule_broken(p, w)
    } else {
        whole
    }
}
