// The results of an operation for all channels.
ghost use Rattle.std.specs.Prelude.{◌≡◌, ℕ, ◌≤◌, ◌<◌, length, get_or};
ghost use Rattle.paper.specs.Operation.{cmp};
ghost use Rattle.words.specs.Operations.{plain_is};
ghost use Rattle.words.specs.declared.operation.Plain.TheVariants.{Cmp};
ghost use Rattle.element.specs.Operands.{Operands};
ghost use Rattle.execute.specs.Results.{Combined};

use crate::each::each;
use words::operation::Plain;

// cmp, by its condition: each has a loop of its own, so that none asks at every channel which condition it is.
fn compare_each(condition: u64, predicate: u64, n: usize, first: &mut [u64; 16], second: &[u64; 16])
    requires { (n ≤ 16) × ((k : ℕ) → k < n → Operands Cmp (get_or first.old k 0) (get_or second.now k 0)) }
    ensures { Combined cmp condition predicate n first.old second.now first.new }
{
    match condition {
        1 => each(Plain::Cmp, 1, predicate, n, first, second),
        2 => each(Plain::Cmp, 2, predicate, n, first, second),
        3 => each(Plain::Cmp, 3, predicate, n, first, second),
        4 => each(Plain::Cmp, 4, predicate, n, first, second),
        5 => each(Plain::Cmp, 5, predicate, n, first, second),
        _ => each(Plain::Cmp, condition, predicate, n, first, second),
    }
}

// The results, by the operation: each has a loop of its own, so that none asks at every channel which operation it is. mov's are the first operands.
pub(crate) fn combine(
    p: Plain,
    condition: u64,
    predicate: u64,
    n: usize,
    first: &mut [u64; 16],
    second: &[u64; 16],
)
    requires { (n ≤ 16) × ((k : ℕ) → k < n → Operands p (get_or first.old k 0) (get_or second.now k 0)) }
    ensures { Combined (plain_is p) condition predicate n first.old second.now first.new }
{
    match p {
        Plain::Mov => (),
        Plain::Sel => each(Plain::Sel, condition, predicate, n, first, second),
        Plain::Not => each(Plain::Not, condition, predicate, n, first, second),
        Plain::And => each(Plain::And, condition, predicate, n, first, second),
        Plain::Or => each(Plain::Or, condition, predicate, n, first, second),
        Plain::Xor => each(Plain::Xor, condition, predicate, n, first, second),
        Plain::Shr => each(Plain::Shr, condition, predicate, n, first, second),
        Plain::Shl => each(Plain::Shl, condition, predicate, n, first, second),
        Plain::Asr => each(Plain::Asr, condition, predicate, n, first, second),
        Plain::Cmp => compare_each(condition, predicate, n, first, second),
        Plain::Add => each(Plain::Add, condition, predicate, n, first, second),
        Plain::Mul => each(Plain::Mul, condition, predicate, n, first, second),
        Plain::Avg => each(Plain::Avg, condition, predicate, n, first, second),
    }
}
