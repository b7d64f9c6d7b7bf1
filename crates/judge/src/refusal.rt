// The six rules in the table's order.
ghost use Rattle.std.specs.Prelude.{false, ◌≡◌};
ghost use Rattle.paper.specs.Operation.{plain, branch};
ghost use Rattle.paper.specs.Legal.{later, refusal_of};
ghost use Rattle.words.specs.Operations.{plain_is, branch_is, operation_is};
ghost use Rattle.words.specs.Words.{to_word};
ghost use Rattle.words.specs.Usual.{Usual};
ghost use Rattle.judge.specs.Verdicts.{number_of};

use crate::dispatch::operation_here;
use crate::operands::operand_rule_broken;
use crate::regions::{alignment_broken, reach_broken, shape_broken};
use crate::served::{branch_served, plain_served, reserved_set};
use table::regions::Regions;
use words::bytes::Word;
use words::fields::opcode;
use words::operation::{Branch, Operation, Plain, is_branch};
use words::refusal::Refusal;
use words::unusual::is_unusual;

// 7 to 11 of an operation with operands, in a word of which UNUSUAL tells whether it is unusual.
#[tactic(auto, unfolding(paper::specs::Legal::later))]
fn judge_operands<const UNUSUAL: bool>(regions: &Regions, p: Plain, w: Word) -> Result<(), Refusal>
    requires { UNUSUAL ≡ false → Usual (to_word w) }
    ensures { number_of result ≡ later (plain (plain_is p)) (to_word w) }
{
    if !plain_served::<UNUSUAL>(p, w) {
        return Err(Refusal::NotServed);
    }
    if operand_rule_broken::<UNUSUAL>(p, w) {
        return Err(Refusal::OperandRule);
    }
    if shape_broken(regions, p, w) {
        return Err(Refusal::RegionShape);
    }
    if alignment_broken::<UNUSUAL>(p, w) {
        return Err(Refusal::Unaligned);
    }
    if reach_broken::<UNUSUAL>(p, w) {
        return Err(Refusal::OutOfReach);
    }
    Ok(())
}

// 7 to 11 of an operation with operands: what few words need is asked of these alone.
pub(crate) fn judge_plain(regions: &Regions, p: Plain, w: Word) -> Result<(), Refusal>
    ensures { number_of result ≡ later (plain (plain_is p)) (to_word w) }
{
    if is_unusual(w) {
        judge_operands::<true>(regions, p, w)
    } else {
        judge_operands::<false>(regions, p, w)
    }
}

// 7 of a branch.
#[tactic(auto, unfolding(paper::specs::Legal::later))]
pub fn judge_branch(b: Branch, w: Word) -> Result<(), Refusal>
    ensures { number_of result ≡ later (branch (branch_is b)) (to_word w) }
{
    if branch_served(b, w) {
        Ok(())
    } else {
        Err(Refusal::NotServed)
    }
}

// 7 to 11: only nop skips them all. What is not listed never comes this far.
#[tactic(auto, unfolding(paper::specs::Legal::later))]
pub(crate) fn judge_operation(regions: &Regions, o: Operation, w: Word) -> Result<(), Refusal>
    ensures { number_of result ≡ later (operation_is o) (to_word w) }
{
    match o {
        Operation::Makes(p) => judge_plain(regions, p, w),
        Operation::Jumps(b) => judge_branch(b, w),
        Operation::Nop | Operation::Unlisted => Ok(()),
    }
}

// 6 to 11 of an expanded word: the first rule that it breaks. 9 of a source is looked up in the table that is lent.
#[tactic(auto, using(crate::specs::Rules::refusal_reserved, crate::specs::Rules::refusal_later))]
pub fn judge(regions: &Regions, w: Word) -> Result<(), Refusal>
    ensures { number_of result ≡ refusal_of (to_word w) }
{
    let o = operation_here(opcode(w));
    if reserved_set(is_branch(o), w) {
        return Err(Refusal::ReservedBits);
    }
    judge_operation(regions, o, w)
}
