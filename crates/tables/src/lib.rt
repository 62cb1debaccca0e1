// The tables: runs of records with rising IDs, lent by their owner.
#![tactic(auto)]

pub mod table;
