// Source modifiers, for all channels.
ghost use Rattle.std.specs.Prelude.{◌≡◌, ℕ, ◌≤◌, ◌<◌, length, get_or};
ghost use Rattle.paper.specs.Value.{modified};
ghost use Rattle.element.specs.Biased.{ex, Near, Keeps};
ghost use Rattle.lanes.specs.Mapped.{Mapped};

use element::modifier::modify;

// The numbers of the n first channels under a modifier.
fn modify_each(modifier: u64, n: usize, values: &mut [u64; 16])
    requires { (n ≤ 16) × ((k : ℕ) → k < n → Near 32 (get_or values.old k 0)) }
    ensures { Mapped (λ k old new. (ex new ≡ modified modifier (ex old)) × Keeps old new) n values.old values.new }
{
    for k in 0..n {
        let v = values[k];
        values[k] = modify(modifier, v);
    }
}

// The same; where there is no modifier nothing is done.
pub(crate) fn modify_all(modifier: u64, n: usize, values: &mut [u64; 16])
    requires { (n ≤ 16) × ((k : ℕ) → k < n → Near 32 (get_or values.old k 0)) }
    ensures { Mapped (λ k old new. (ex new ≡ modified modifier (ex old)) × Keeps old new) n values.old values.new }
{
    if modifier != 0 {
        modify_each(modifier, n, values);
    }
}
