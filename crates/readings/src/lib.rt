// Engineering readings: a datapoint's value as a number, by its DPT and type code. Nothing here writes to a table.
#![tactic(auto)]

pub mod numbers;
pub mod reading;
pub mod two_octet;
