// What the bench holds: the sizes and limits of the paper, each named once for the code.

// The register file: r0 to r127, 32 bytes each.
pub const REGISTER_BYTES: usize = 4096;

// The dictionary as it is lent: 128 numbers of four bytes.
pub const DICTIONARY_BYTES: usize = 512;

// The address register a0: eight numbers of 16 bits.
pub const ADDRESS_BYTES: usize = 16;

// The state as it is lent: flags, place and channels, and a0 last.
pub const STATE_LENGTH: usize = 58;

// Where a0 stands in it.
pub const ADDRESSES_AT: usize = STATE_LENGTH - ADDRESS_BYTES;

// A kernel's bytes, at the most.
pub const KERNEL_BYTES: usize = 65536;

// A kernel's instructions, at the most.
pub const INSTRUCTION_LIMIT: u64 = 4096;

// The largest place: the end of the longest kernel, eight bytes a place.
pub const LAST_PLACE: u64 = KERNEL_BYTES as u64 / 8;

// A run's budget, at the most.
pub const BUDGET_LIMIT: u64 = 1000000;

// The places of the longest kernel, of 8 bytes each, and its end.
pub const PLACES: usize = KERNEL_BYTES / 8 + 1;
