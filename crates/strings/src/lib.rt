// GetDescriptionString: the texts of datapoints, gathered into an answer.
#![tactic(auto)]

pub mod gather;
pub mod get;
