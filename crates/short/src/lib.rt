// Short words: the dictionary, expanding and shortening.
#![tactic(auto)]

pub mod calls;
pub mod dictionary;
pub mod expand;
pub mod sets;
pub mod shorten;
