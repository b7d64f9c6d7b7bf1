// Flags: numbers, bit m being channel m's.
ghost use Rattle.std.specs.Prelude.{◌≡◌, ◌+◌, ◌<◌, ◌≤◌};
ghost use Rattle.paper.specs.Bits.{bit};
ghost use Rattle.paper.specs.Enable.{flag_after};

use crate::mask::ALL;

// f0.0 and f0.1, numbers of a kind. A run's have 16 bits; what only reads them takes 64.
#[derive(Clone, Copy)]
pub struct Flags<T> {
    pub flag0: T,
    pub flag1: T,
}

impl Flags<u16> {
    // The same numbers.
    pub fn wide(self) -> Flags<u64>
        ensures { result ≡ self }
    {
        Flags {
            flag0: u64::from(self.flag0),
            flag1: u64::from(self.flag1),
        }
    }
}

// A flag after cmp on n channels from `first` on: the bits of the enabled ones are their results; all other bits stay.
// Enabled channels and results are masks by channel number.
pub fn flag_after(old: u64, first: u64, n: u64, enable: u64, res: u64) -> u16
    requires { first + n ≤ 16 }
    ensures { result ≡ flag_after old first n (bit enable) (bit res) }
{
    let field = ((1 << n) - 1) << first;
    let written = enable & field;
    ((old & (ALL - written)) | (res & written)) as u16
}
