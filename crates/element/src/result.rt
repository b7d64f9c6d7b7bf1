// The result of an operation on two numbers.
ghost use Rattle.std.specs.Prelude.{◌≡◌};
ghost use Rattle.paper.specs.Element.{result as whole_result};
ghost use Rattle.words.specs.Operations.{plain_is};
ghost use Rattle.element.specs.Biased.{ex};
ghost use Rattle.element.specs.Operands.{Operands};

use super::arithmetic::{add, average, multiply};
use super::compare::{compare, one_if};
use super::logic::{logic_and, logic_not, logic_or, logic_xor};
use super::shift::{shift_left, shift_right};
use words::operation::Plain;

// The result of an operation on src0's value a and src1's b. cmp reads the condition code, sel whether the predicate holds.
pub fn compute(p: Plain, condition: u64, holds: bool, a: u64, b: u64) -> u64
    requires { Operands p a b }
    ensures { ex result ≡ whole_result (plain_is p) condition holds (ex a) (ex b) }
{
    match p {
        Plain::Mov => a,
        Plain::Sel => { if holds { a } else { b } }
        Plain::Not => logic_not(a),
        Plain::And => logic_and(a, b),
        Plain::Or => logic_or(a, b),
        Plain::Xor => logic_xor(a, b),
        Plain::Shr | Plain::Asr => shift_right(a, b),
        Plain::Shl => shift_left(a, b),
        Plain::Cmp => one_if(compare(condition, a, b)),
        Plain::Add => add(a, b),
        Plain::Mul => multiply(a, b),
        Plain::Avg => average(a, b),
    }
}
