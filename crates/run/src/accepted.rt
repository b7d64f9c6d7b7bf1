// A kernel that was accepted, as steps and runs take it.

use words::limits::{DICTIONARY_BYTES, PLACES};

// An accepted kernel with its dictionary, and the marks of the places at which its instructions start, and of its end.
#[derive(Clone, Copy)]
pub struct Accepted<'a> {
    pub dictionary: &'a [u8; DICTIONARY_BYTES],
    pub kernel: &'a [u8],
    pub marks: &'a [u8; PLACES],
}
