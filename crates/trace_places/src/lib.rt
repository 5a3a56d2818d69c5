// The trace of a batch: the rows that its events name, chained for each row, what is kept of each event, and the links that its deletes took along.
#![tactic(auto)]

pub mod keep;
pub mod lost;
pub mod places;
