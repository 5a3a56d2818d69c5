// Document 01's register as lent tables: the columns of its rows, and the rows of ids and links.
#![tactic(auto)]

pub mod columns;
pub mod floors;
pub mod search;

pub use columns::{cell_of, id_of, type_of};
pub use search::{link_row, object_row};
