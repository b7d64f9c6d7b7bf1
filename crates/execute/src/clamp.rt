// Saturation for all channels.
ghost use Rattle.std.specs.Prelude.{◌≡◌, true, ◌≤◌, length};
ghost use Rattle.laws.specs.Values.{IsWhole};
ghost use Rattle.execute.specs.Results.{Kept};

use element::value::clamp;

// The results of the n first channels clamped to the type.
// (A loop of one line, as those of `operands::modify`; what it leaves is `Kept`, and not `Mapped`.)
fn clamp_each(kind: u64, n: usize, values: &mut [u64; 16])
    requires { (n ≤ 16) × IsWhole kind }
    ensures { Kept true kind n values.old values.new }
{
    for k in 0..n {
        values[k] = clamp(kind, values[k]);
    }
}

// The same if Saturate is set; else they stay. Their low bits are then what is stored.
pub(crate) fn clamp_all(saturated: bool, kind: u64, n: usize, values: &mut [u64; 16])
    requires { (n ≤ 16) × IsWhole kind }
    ensures { Kept saturated kind n values.old values.new }
{
    if saturated {
        clamp_each(kind, n, values);
    }
}
