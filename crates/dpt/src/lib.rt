// Datapoint types: how a datapoint's value is read as a number, as definitions. No function but a
// refusal's number: the code is in `readings`.
#![tactic(auto)]

pub mod reading;
