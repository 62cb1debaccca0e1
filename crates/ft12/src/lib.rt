// FT1.2 of the server end as definitions: frames, receiver, link record, rules, frames on their way, and bursts. No
// function but a refusal's number: the code is in `link` and the crates that it stands on, and in `bursts`. It knows
// nothing of datapoints: the link hands up a message and takes one back.
#![tactic(auto)]

pub mod burst;
pub mod frame;
pub mod receiver;
pub mod record;
pub mod rules;
