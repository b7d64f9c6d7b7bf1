// Which of a word's two sources is asked for.
ghost use Rattle.std.specs.Prelude.{◌≡◌};
ghost use Rattle.words.specs.Words.{source_is};
ghost use Rattle.operands.specs.Source.{source_of};

use words::fields::Source;

// The second source of a word, or its first.
pub(crate) fn source_of<const SECOND: bool>() -> Source
    ensures { source_is result ≡ source_of SECOND }
{
    if SECOND {
        Source::Second
    } else {
        Source::First
    }
}
