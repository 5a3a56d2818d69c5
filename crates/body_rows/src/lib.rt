// The rows of a rule's body: where each form starts, and what its operator says.
#![tactic(auto)]

pub mod body;
