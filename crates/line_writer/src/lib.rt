// The lines of lent tables, each by its row.
#![tactic(auto)]

pub mod lines;
mod pieces;
