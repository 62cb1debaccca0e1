// A message carried out.
#![tactic(auto)]

pub mod service;
