// The address register a0 as an operand, and operands by address.
ghost use Rattle.std.specs.Prelude.{◌≡◌, ◌<◌};
ghost use Rattle.paper.specs.Word.{dst_by_address, dst_indirect, dst_is_a0, src_by_address, src_indirect, src_is_a0};
ghost use Rattle.paper.specs.Region.{register_at};
ghost use Rattle.words.specs.Words.{to_word, source_is};

use crate::bytes::Word;
use crate::fields::{
    Source, dst_addr_mode, dst_file, dst_register, is_immediate, low, of_source, src_addr_mode,
    src_file, src_register,
};

// ---- a0

// The destination is a0.
pub fn dst_is_a0(w: Word) -> bool
    ensures { result ≡ dst_is_a0 (to_word w) }
{
    dst_file(w) == 0 && dst_register(w) == 16
}

// The source is a0.
pub fn src_is_a0(x: Source, w: Word) -> bool
    ensures { result ≡ src_is_a0 (source_is x) (to_word w) }
{
    src_file(x, w) == 0 && src_register(x, w) == 16
}

// The byte at which a register begins in its file: a0 is a file of its own.
pub(crate) fn register_at(a0: bool, register: u64) -> u64
    requires { register < 256 }
    ensures { (result ≡ register_at a0 register) × (result < 8161) }
{
    if a0 { 0 } else { register * 32 }
}

// ---- by address

// The destination is by address.
pub fn dst_by_address(w: Word) -> bool
    ensures { result ≡ dst_by_address (to_word w) }
{
    dst_addr_mode(w) == 1
}

// The source is by address.
pub fn src_by_address(x: Source, w: Word) -> bool
    ensures { result ≡ src_by_address (source_is x) (to_word w) }
{
    !is_immediate(x, w) && src_addr_mode(x, w) == 1
}

// The thirteen bits by which the destination's address is named: an element of a0, and AddrImm.
pub fn dst_indirect(w: Word) -> u64
    ensures { (result ≡ dst_indirect (to_word w)) × (result < 8192) }
{
    low(w, 48, 13)
}

// The same of a source.
pub fn src_indirect(x: Source, w: Word) -> u64
    ensures { (result ≡ src_indirect (source_is x) (to_word w)) × (result < 8192) }
{
    of_source(x, w, 0, 13)
}
