// Bytes, and the words that all definitions share.
#![tactic(auto)]

pub mod bytes;
