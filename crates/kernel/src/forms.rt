// Which words a kernel is taken with.

// Long words only, or short ones too.
#[derive(Clone, Copy, Debug, PartialEq, Eq)]
pub enum Forms {
    LongOnly,
    LongAndShort,
}
