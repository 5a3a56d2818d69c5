// What the checks of lent tables are given and what they answer.
#![tactic(auto)]

// The words of a row of each table (specs/Layouts).
pub const TYPE_WIDTH: u32 = 2;

pub const FLOOR_WIDTH: u32 = 2;

pub const RELATIONSHIP_WIDTH: u32 = 2;

pub const RULE_WIDTH: u32 = 2;

pub const BODY_WIDTH: u32 = 4;

pub const OBJECT_WIDTH: u32 = 10;

pub const LINK_WIDTH: u32 = 3;

pub const EVENT_WIDTH: u32 = 4;

// Words of a pair in a list: rule, id.
pub const PAIR_WIDTH: u32 = 2;

// Words of a loss (specs/Losses): role, id.
pub const LOSS_WIDTH: u32 = 2;

// How many rows of each lent table are used.
#[derive(Clone, Copy)]
pub struct Counts {
    pub types: u32,
    pub floors: u32,
    pub relationships: u32,
    pub rules: u32,
    pub objects: u32,
    pub links: u32,
    pub events: u32,
}

// The words of each lent table.
#[derive(Clone, Copy)]
pub struct Sheet<'a> {
    pub types: &'a [u32],
    pub floors: &'a [u32],
    pub relationships: &'a [u32],
    pub rules: &'a [u32],
    pub bodies: &'a [u32],
    pub objects: &'a [u32],
    pub links: &'a [u32],
    pub events: &'a [u32],
}

// A refusal: its number and its place.
#[derive(Clone, Copy, PartialEq, Eq)]
pub struct Refusal {
    pub number: u32,
    pub place: u32,
}

// What a check says: accepted, the first broken rule and object, or a refusal's number and place.
#[derive(Clone, Copy)]
pub enum Answer {
    Accepted,
    Broken(u32, u32),
    Refused(u32, u32),
}
