// What the code of a type says.
// A code is a number, here and in `element`, `operands` and `execute`: what is said of it is the paper's (`size_of`, `width`, `value`, `clamp_to`), and `size_of` answers every number, 0 for what is no
// type's. An enum would have a case for that, and one case more in `width_of` made runs slower (docs/PROOFS.md).
ghost use Rattle.std.specs.Prelude.{◌≡◌, ◌<◌, ◌≤◌};
ghost use Rattle.paper.specs.Value.{width, size_of};

// The bytes of its elements; none where the code is no type's.
// (0, and no Option: the paper's `size_of` has it, and the judge takes it as a size of which only 0 is a multiple.)
pub fn size_of(kind: u64) -> u64
    ensures { (result ≡ size_of kind) × (result ≤ 4) }
{
    match kind {
        0..=1 | 7 => 4,
        2..=3 => 2,
        4..=5 => 1,
        _ => 0,
    }
}

// The bits of a type of whole numbers. It is asked of these alone, since elements are read by it, and a fourth case made runs slower; a float is read and stored
// as ud is.
pub fn width_of(kind: u64) -> u32
    requires { kind < 6 }
    ensures { (result ≡ width kind) × (result ≤ 32) }
{
    match kind {
        0..=1 => 32,
        2..=3 => 16,
        _ => 8,
    }
}
