// The refusals of a call: those of what is lent, and the bus events, of which each is taken or refused.
#![tactic(auto)]

pub mod bus;
pub mod refusal;
