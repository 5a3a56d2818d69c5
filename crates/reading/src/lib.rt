// A whole text looked through line by line: how many rows each table has, or the first refusal.
#![tactic(auto)]

pub mod look;
