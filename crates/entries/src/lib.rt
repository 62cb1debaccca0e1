// The entries of answers, one record each.
#![tactic(auto)]

pub mod entry;
