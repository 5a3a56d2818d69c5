#![tactic(auto)]

// The limits of document 01, "Schema, register, batch", and of Req 02 and 07, as `specs/Limits` has them.
pub const MAX_TYPES: u32 = 32;

pub const MAX_FLOORS: u32 = 256;

pub const MAX_RELATIONSHIPS: u32 = 32;

pub const MAX_RULES: u32 = 32;

pub const MAX_FORMS: u32 = 64;

pub const MAX_OBJECTS: u32 = 1024;

pub const MAX_LINKS: u32 = 4096;

pub const MAX_EVENTS: u32 = 256;

pub const CELLS: u32 = 8;

pub const MAX_ID: u32 = 2147483647;
