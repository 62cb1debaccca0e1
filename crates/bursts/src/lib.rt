// A second reader of the line: everything between two idle marks at once (document 02, item 8). It goes from piece to
// piece by their lengths. It keeps no link record and knows nothing of datapoints.
#![tactic(auto)]

pub mod burst;
pub mod piece;
pub mod sum;
