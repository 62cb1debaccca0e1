// The gets: entries gathered into an answer.
#![tactic(auto)]

pub mod found;
pub mod gather;
pub mod get;
