// Events, replies and what a burst holds, as the numbers that firmware gives and gets.
#![tactic(auto)]

pub mod burst;
pub mod numbers;
