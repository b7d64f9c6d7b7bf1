// The bytes that rows lay out: of all that is lent, a number, word, register or place more than is right.
use words::limits::{DICTIONARY_BYTES, KERNEL_BYTES, REGISTER_BYTES, STATE_LENGTH};

// A kernel's bytes, and an output's.
pub const LONGEST: usize = KERNEL_BYTES + 16;

// The table's bytes: the dictionary's, and from KERNEL on the kernel's.
pub const KERNEL: usize = DICTIONARY_BYTES + 4;

pub const TABLE: usize = KERNEL + LONGEST;

// The board's bytes: the registers', and from OUTPUT on the output's.
pub const OUTPUT: usize = REGISTER_BYTES + 32;

pub const BOARD: usize = OUTPUT + LONGEST;

// The state's bytes.
pub const STATE: usize = STATE_LENGTH + 2;
