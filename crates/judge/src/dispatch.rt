// The operation of an opcode, for the judge.
ghost use Rattle.std.specs.Prelude.{◌≡◌};
ghost use Rattle.paper.specs.Operation.{operation_of};
ghost use Rattle.words.specs.Operations.{operation_is};

use words::operation::{Branch, Operation, Plain};

// The same as `words::operation::operation_of`, with one caller, as `machine::dispatch` has it for a step: so it is compiled into it, and what it answers never goes through memory. The
// judge takes a tenth less time so than by the one with many callers (docs/PERFORMANCE.md).
#[tactic(auto, unfolding(paper::specs::Operation::operation_of))]
pub(crate) fn operation_here(code: u64) -> Operation
    ensures { operation_is result ≡ operation_of code }
{
    match code {
        0x01 => Operation::Makes(Plain::Mov),
        0x02 => Operation::Makes(Plain::Sel),
        0x04 => Operation::Makes(Plain::Not),
        0x05 => Operation::Makes(Plain::And),
        0x06 => Operation::Makes(Plain::Or),
        0x07 => Operation::Makes(Plain::Xor),
        0x08 => Operation::Makes(Plain::Shr),
        0x09 => Operation::Makes(Plain::Shl),
        0x0C => Operation::Makes(Plain::Asr),
        0x10 => Operation::Makes(Plain::Cmp),
        0x40 => Operation::Makes(Plain::Add),
        0x41 => Operation::Makes(Plain::Mul),
        0x42 => Operation::Makes(Plain::Avg),
        0x7E => Operation::Nop,
        0x20 => Operation::Jumps(Branch::Jmpi),
        0x22 => Operation::Jumps(Branch::If),
        0x24 => Operation::Jumps(Branch::Else),
        0x25 => Operation::Jumps(Branch::Endif),
        0x27 => Operation::Jumps(Branch::While),
        0x28 => Operation::Jumps(Branch::Break),
        0x29 => Operation::Jumps(Branch::Cont),
        _ => Operation::Unlisted,
    }
}
