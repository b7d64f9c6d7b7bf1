// An operation on the operands of all channels.
ghost use Rattle.std.specs.Prelude.{◌≡◌, ℕ, ◌≤◌, ◌<◌, length, get_or};
ghost use Rattle.words.specs.Operations.{plain_is};
ghost use Rattle.element.specs.Operands.{Operands};
ghost use Rattle.execute.specs.Results.{Combined};

use element::result::compute;
use lanes::mask::bit;
use words::operation::Plain;

// The first operands of the n first channels become the results. Bit k of the mask says whether channel k's predicate holds.
pub(crate) fn each(
    p: Plain,
    condition: u64,
    predicate: u64,
    n: usize,
    first: &mut [u64; 16],
    second: &[u64; 16],
)
    requires { (n ≤ 16) × ((k : ℕ) → k < n → Operands p (get_or first.old k 0) (get_or second.now k 0)) }
    ensures { Combined (plain_is p) condition predicate n first.old second.now first.new }
{
    for k in 0..n {
        let holds = bit(predicate, k as u64);
        first[k] = compute(p, condition, holds, first[k], second[k]);
    }
}
