#![tactic(auto)]

// Places among the text's names (specs/Names): the sections, whose places are their numbers, events from the last section's on, operators.
pub const TYPE_SECTION: u32 = 0;

pub const FLOOR_SECTION: u32 = 1;

pub const RELATIONSHIP_SECTION: u32 = 2;

pub const RULE_SECTION: u32 = 3;

pub const OBJECT_SECTION: u32 = 4;

pub const LINK_SECTION: u32 = 5;

pub const EVENT_SECTION: u32 = 6;

pub const SECTION_COUNT: u32 = 7;

pub const FIRST_OPERATOR: u32 = 13;

pub const NAME_COUNT: u32 = 36;

// The item `-`, which is no number's word (specs/Tokens).
pub const DASH: u64 = 4294967296;

// The bytes of a text at most (specs/Texts).
pub const MAX_TEXT: usize = 65536;
