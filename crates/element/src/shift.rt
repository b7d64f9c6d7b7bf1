// Shifts by a count modulo 32.
ghost use Rattle.std.specs.Prelude.{◌≡◌, ◌<◌};
ghost use Rattle.paper.specs.Value.{mod_z};
ghost use Rattle.paper.specs.Element.{shift_left, shift_right};
ghost use Rattle.element.specs.Biased.{ex, Near};

use super::value::BASE;

// How far a count shifts: its value modulo 32.
fn shift_count(count: u64) -> u64
    ensures { (result ≡ mod_z (ex count) 32) × (result < 32) }
{
    count % 32
}

// v divided by 2 to the count, rounded down: the shifted number has lost part of what stands for 0, which is put back.
pub(crate) fn shift_right(v: u64, count: u64) -> u64
    requires { Near 32 v }
    ensures { ex result ≡ shift_right (ex v) (ex count) }
{
    let n = shift_count(count);
    (v >> n) + (BASE - (BASE >> n))
}

// v times 2 to the count: v is raised by 2^32 before, and lowered by the shifted 2^32 after.
pub(crate) fn shift_left(v: u64, count: u64) -> u64
    requires { Near 32 v }
    ensures { ex result ≡ shift_left (ex v) (ex count) }
{
    let n = shift_count(count);
    ((v - (BASE - 4294967296)) << n) + (BASE - (4294967296 << n))
}
