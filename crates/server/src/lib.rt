// The server: one call takes an event and answers with the bytes to send.
#![tactic(auto)]

pub mod call;
pub mod host_byte;
pub mod poll;
