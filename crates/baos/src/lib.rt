// Tables and services as definitions: records, tables, requests, answers, the indication. No function but
// the numbers of the types: the code is in `services` and the crates that it stands on.
#![tactic(auto)]

pub mod bus;
pub mod code;
pub mod datapoint;
pub mod inner;
pub mod item;
pub mod lookup;
pub mod service;
pub mod table;
