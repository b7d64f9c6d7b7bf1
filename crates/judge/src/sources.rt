// A test of an operation's sources, by the first and the second.
ghost use Rattle.std.specs.Prelude.{◌≡◌};
ghost use Rattle.judge.specs.Sources.{any_source};
ghost use Rattle.words.specs.Operations.{plain_is};

use words::operation::Plain;
use words::traits::reads_two;

// The first source's test holds, or the second's where it is read.
pub fn any_source(p: Plain, first: bool, second: bool) -> bool
    ensures { result ≡ any_source (plain_is p) first second }
{
    first | (reads_two(p) & second)
}
