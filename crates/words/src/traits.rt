// What is asked of an operation that makes a result, by the rules and by whoever carries it out.
ghost use Rattle.std.specs.Prelude.{◌≡◌};
ghost use Rattle.paper.specs.Operation.{traits};
ghost use Rattle.words.specs.Operations.{plain_is};
ghost use Rattle.laws.specs.Sources.{reads_two};
ghost use Rattle.words.specs.Asked.{Asked};

use crate::operation::Plain;

// The operation reads two sources, and else one; Saturate is served on it; its sources may have modifiers; floats are served on it; it is cmp,
// which sets flags; its predicate masks its channels.
#[derive(Clone, Copy)]
pub struct Row {
    pub two: bool,
    pub saturates: bool,
    pub modifiers: bool,
    pub floats: bool,
    pub compares: bool,
    pub masks: bool,
}

// Each operation's row.
fn row_of(p: Plain) -> Row
    ensures { Asked (plain_is p) result }
{
    match p {
        Plain::Mov => Row {
            two: false,
            saturates: true,
            modifiers: true,
            floats: true,
            compares: false,
            masks: true,
        },
        Plain::Sel => Row {
            two: true,
            saturates: true,
            modifiers: true,
            floats: false,
            compares: false,
            masks: false,
        },
        Plain::Not => Row {
            two: false,
            saturates: false,
            modifiers: false,
            floats: false,
            compares: false,
            masks: true,
        },
        Plain::And | Plain::Or | Plain::Xor | Plain::Shr | Plain::Shl | Plain::Asr => Row {
            two: true,
            saturates: false,
            modifiers: false,
            floats: false,
            compares: false,
            masks: true,
        },
        Plain::Cmp => Row {
            two: true,
            saturates: false,
            modifiers: true,
            floats: true,
            compares: true,
            masks: true,
        },
        Plain::Add | Plain::Mul => Row {
            two: true,
            saturates: true,
            modifiers: true,
            floats: true,
            compares: false,
            masks: true,
        },
        Plain::Avg => Row {
            two: true,
            saturates: true,
            modifiers: true,
            floats: false,
            compares: false,
            masks: true,
        },
    }
}

// It reads two sources, and else one.
pub fn reads_two(p: Plain) -> bool
    ensures { result ≡ reads_two (plain_is p) }
{
    row_of(p).two
}

// Saturate is served on it.
pub fn saturates(p: Plain) -> bool
    ensures { result ≡ (traits (plain_is p)).saturates }
{
    row_of(p).saturates
}

// Its sources may have modifiers.
pub fn takes_modifiers(p: Plain) -> bool
    ensures { result ≡ (traits (plain_is p)).modifiers }
{
    row_of(p).modifiers
}

// Floats are served on it.
pub fn takes_floats(p: Plain) -> bool
    ensures { result ≡ (traits (plain_is p)).floats }
{
    row_of(p).floats
}

// It is cmp, which sets flags.
pub fn compares(p: Plain) -> bool
    ensures { result ≡ (traits (plain_is p)).compares }
{
    row_of(p).compares
}

// Its predicate masks its channels: sel's chooses a source instead.
pub fn masks(p: Plain) -> bool
    ensures { result ≡ (traits (plain_is p)).masks }
{
    row_of(p).masks
}
