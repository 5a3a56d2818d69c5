// Connectives and quantifiers by the codes of their rows.
#![tactic(auto)]

pub mod operators;
