// SetParameterByte.
#![tactic(auto)]

pub mod parameter;
