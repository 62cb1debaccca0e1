// DatapointValue.Ind, the message that the server sends by itself.
#![tactic(auto)]

pub mod indication;
