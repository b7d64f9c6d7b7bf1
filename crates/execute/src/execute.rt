// What an instruction that is no branch does to registers and flags, its operands being named directly, none of them a0.
ghost use Rattle.std.specs.Prelude.{false, List, ◌≡◌, ℕ, ◌<◌};
ghost use Rattle.paper.specs.Legal.{uses_a0};
ghost use Rattle.paper.specs.Effect.{plain_effect};
ghost use Rattle.words.specs.Words.{to_word};
ghost use Rattle.words.specs.Operations.{plain_is};
ghost use Rattle.lanes.specs.Masks.{awake_list};
ghost use Rattle.execute.specs.Stores.{store_of};
ghost use Rattle.execute.specs.Readable.{Counting};

use crate::many::execute_many;
use crate::one::execute_one;
use lanes::flags::Flags;
use words::bytes::Word;
use words::fields::exec_size;
use words::limits::REGISTER_BYTES;
use words::operation::Plain;

// An instruction that is no branch and has no operand in a0, whatever a0 holds: it stays. One channel has a way of its own.
pub fn execute(
    p: Plain,
    w: Word,
    awake: u64,
    flags: Flags<u16>,
    registers: &mut [u8; REGISTER_BYTES],
) -> Flags<u16>
    requires { Counting (plain_is p) (to_word w) × (uses_a0 (plain_is p) (to_word w) ≡ false) }
    ensures by_index { (addresses : List ℕ) → (registers.new ≡ (plain_effect (plain_is p) (to_word w) (awake_list awake) (store_of registers.old flags addresses)).registers)
        × (addresses ≡ (plain_effect (plain_is p) (to_word w) (awake_list awake) (store_of registers.old flags addresses)).addresses) }
    ensures by_index_2 { (addresses : List ℕ) → (result.flag0 ≡ (plain_effect (plain_is p) (to_word w) (awake_list awake) (store_of registers.old flags addresses)).flag0)
        × (result.flag1 ≡ (plain_effect (plain_is p) (to_word w) (awake_list awake) (store_of registers.old flags addresses)).flag1) }
{
    if exec_size(w) == 0 {
        execute_one(p, w, awake, flags, registers)
    } else {
        execute_many(p, w, awake, flags, registers)
    }
}
