// One number for all channels.
ghost use Rattle.std.specs.Prelude.{◌≡◌, ◌≤◌, length};
ghost use Rattle.lanes.specs.Mapped.{Mapped};

// The number for each of the n first channels.
pub(crate) fn spread(number: u64, n: usize, values: &mut [u64; 16])
    requires { n ≤ 16 }
    ensures { Mapped (λ k old new. new ≡ number) n values.old values.new }
{
    for k in 0..n {
        values[k] = number;
    }
}
