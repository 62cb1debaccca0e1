// One datapoint record, by value: how it changes when it is handed out or the bus has something for it, and which
// filters it passes. Nothing here knows of a table.
#![tactic(auto)]

pub mod bus;
pub mod datapoint;
pub mod filter;
