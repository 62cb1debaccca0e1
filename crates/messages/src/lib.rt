// A request's fields, and the heads of answers.
#![tactic(auto)]

pub mod message;
