// The byte-wise receiver: what a byte is after those gathered before it, and the test for a beginning of a frame.
#![tactic(auto)]

pub mod receiver;
