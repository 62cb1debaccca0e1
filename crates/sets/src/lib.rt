// The sets of items and datapoints: entries found, judged, then applied.
#![tactic(auto)]

pub mod entry;
pub mod set;
