// What an entry of a set request does to one record, by value: its code, and the record after it.
#![tactic(auto)]

pub mod command;
pub mod item;
