// The frames of FT1.2: built into a lent buffer, and tested.
#![tactic(auto)]

pub mod frame;
