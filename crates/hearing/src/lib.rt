// The rules of the link, by value: what a judged byte is to it, the bits after that, and where a request's message
// stands.
#![tactic(auto)]

pub mod case;
pub mod request;
