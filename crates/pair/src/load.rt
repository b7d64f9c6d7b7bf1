// The kernel to load.
ghost use Rattle.std.specs.Prelude.{◌≡◌};
ghost use Rattle.paper.specs.Calls.{load_part};

use crate::pair::pair;

// It is a part of one of the two that are lent: the sent one if the pair is accepted, else the long one; an empty part where the long one is refused.
pub fn load<'a>(dictionary: &[u8], long: &'a [u8], sent: &'a [u8]) -> &'a [u8]
    ensures { result.now ≡ load_part dictionary.now long.now sent.now }
{
    match pair(dictionary, long, sent) {
        Ok(_) => sent,
        Err(refused) => match refused.count {
            None => &long[..0],
            Some(_) => long,
        },
    }
}
