// What one of document 01's events does to the register's tables.
#![tactic(auto)]

mod deletes;
mod effects;

pub use effects::{effect, row_effect};

// How many rows are used of the register's tables, and of the losses.
#[derive(Clone, Copy)]
pub struct Held {
    pub objects: u32,
    pub links: u32,
    pub losses: u32,
}
