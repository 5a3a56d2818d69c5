// One line of the text as a row of a table, after the lines before it.
#![tactic(auto)]

pub mod line;
