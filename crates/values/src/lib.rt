// Single records: a value, with its size by type code, its unused bits and its place in a record; and what looking up an
// ID finds.
#![tactic(auto)]

pub mod lookup;
pub mod value;
