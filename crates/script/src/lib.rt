// A script: its lines read, the records that they tell, and the trace that is written beside them.
#![tactic(auto)]

pub mod line;
pub mod print;
pub mod record;
