// What the test programs share: cases as lines of data, and the tables of a case.
#![tactic(auto)]

pub mod line;
pub mod sheet;
