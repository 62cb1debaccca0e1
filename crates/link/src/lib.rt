// The FT1.2 link of the server end. It knows nothing of datapoints: it hands up a message and takes one back.
#![tactic(auto)]

pub mod events;
pub mod range;
