// The types that the events of a batch bring objects into and take them out of.
#![tactic(auto)]

pub mod moves;
pub mod types;
