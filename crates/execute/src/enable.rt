// Which channels an instruction works on, as masks by channel number.
ghost use Rattle.std.specs.Prelude.{[], ◌≡◌};
ghost use Rattle.paper.specs.Word.{we_ctrl};
ghost use Rattle.paper.specs.Operation.{traits};
ghost use Rattle.words.specs.Words.{to_word};
ghost use Rattle.words.specs.Operations.{plain_is};
ghost use Rattle.lanes.specs.Masks.{enable_mask};
ghost use Rattle.lanes.specs.MaskLaws.{predicate_of};
ghost use Rattle.execute.specs.Stores.{store_of};

use crate::flags::chosen;
use lanes::flags::Flags;
use lanes::mask::{ALL, enable_mask, predicate_mask};
use words::bytes::Word;
use words::fields::{pred_ctrl, pred_inv, we_ctrl};
use words::operation::Plain;
use words::traits::masks;

// The channels whose predicate holds.
pub fn voted(w: Word, flags: Flags<u64>) -> u64
    ensures { result ≡ predicate_of (to_word w) (store_of [] flags []) }
{
    predicate_mask(chosen(w, flags), pred_ctrl(w), pred_inv(w))
}

// The channels whose predicate holds, told at once where there is no predicate. It asks for the mask itself: with two callers `predicate_mask`, which is large, stays a function of its own,
// and what is handed to it are numbers.
pub fn predicate_of(w: Word, flags: Flags<u64>) -> u64
    ensures { result ≡ predicate_of (to_word w) (store_of [] flags []) }
{
    if pred_ctrl(w) == 0 {
        return ALL;
    }
    predicate_mask(chosen(w, flags), pred_ctrl(w), pred_inv(w))
}

// The enabled channels, by those that are awake and those whose predicate holds.
pub fn enable_of(p: Plain, w: Word, awake: u64, predicate: u64) -> u64
    ensures { result ≡ enable_mask (we_ctrl (to_word w)) (traits (plain_is p)).masks awake predicate }
{
    enable_mask(awake, we_ctrl(w), masks(p), predicate)
}
