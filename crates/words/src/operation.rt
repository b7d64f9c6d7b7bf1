// The operations by their opcodes.
ghost use Rattle.std.specs.Prelude.{◌≡◌};
ghost use Rattle.paper.specs.Operation.{operation_of, is_branch, is_listed};
ghost use Rattle.words.specs.Operations.{operation_is};

// Operations that make a result of their sources.
#[derive(Clone, Copy, Debug, PartialEq, Eq)]
pub enum Plain {
    Mov,
    Sel,
    Not,
    And,
    Or,
    Xor,
    Shr,
    Shl,
    Asr,
    Cmp,
    Add,
    Mul,
    Avg,
}

// Operations that lead elsewhere.
#[derive(Clone, Copy, Debug, PartialEq, Eq)]
pub enum Branch {
    Jmpi,
    If,
    Else,
    Endif,
    While,
    Break,
    Cont,
}

// What an opcode stands for.
#[derive(Clone, Copy, Debug, PartialEq, Eq)]
pub enum Operation {
    Makes(Plain),
    Nop,
    Jumps(Branch),
    Unlisted,
}

// The operation of an opcode.
#[tactic(auto, unfolding(paper::specs::Operation::operation_of))]
pub fn operation_of(code: u64) -> Operation
    ensures { operation_is result ≡ operation_of code }
{
    match code {
        0x01 => Operation::Makes(Plain::Mov),
        0x02 => Operation::Makes(Plain::Sel),
        0x04 => Operation::Makes(Plain::Not),
        0x05 => Operation::Makes(Plain::And),
        0x06 => Operation::Makes(Plain::Or),
        0x07 => Operation::Makes(Plain::Xor),
        0x08 => Operation::Makes(Plain::Shr),
        0x09 => Operation::Makes(Plain::Shl),
        0x0C => Operation::Makes(Plain::Asr),
        0x10 => Operation::Makes(Plain::Cmp),
        0x40 => Operation::Makes(Plain::Add),
        0x41 => Operation::Makes(Plain::Mul),
        0x42 => Operation::Makes(Plain::Avg),
        0x7E => Operation::Nop,
        0x20 => Operation::Jumps(Branch::Jmpi),
        0x22 => Operation::Jumps(Branch::If),
        0x24 => Operation::Jumps(Branch::Else),
        0x25 => Operation::Jumps(Branch::Endif),
        0x27 => Operation::Jumps(Branch::While),
        0x28 => Operation::Jumps(Branch::Break),
        0x29 => Operation::Jumps(Branch::Cont),
        _ => Operation::Unlisted,
    }
}

// The operation is a branch.
pub fn is_branch(o: Operation) -> bool
    ensures { result ≡ is_branch (operation_is o) }
{
    matches!(o, Operation::Jumps(_))
}

// The operation is one of the paper's.
pub fn is_listed(o: Operation) -> bool
    ensures { result ≡ is_listed (operation_is o) }
{
    !matches!(o, Operation::Unlisted)
}
