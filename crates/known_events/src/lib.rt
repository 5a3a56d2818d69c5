// Refusal 7 of an event by itself: its kind, type, relationship, cell and ids.
#![tactic(auto)]

ghost use Rattle.std.specs.Prelude.{◌≡◌, ◌&&◌, List, ℕ, ltb, eqb};
ghost use Rattle.meaning.specs.Limits.{cell_count, valid_id, fits_word};
ghost use Rattle.meaning.specs.Schema.{Floor, known_type, known_relationship};
ghost use Rattle.meaning.specs.Events.{known_event};
ghost use Rattle.rows.specs.Rows.{signed};
ghost use Rattle.tables.specs.Columns.{types_of, relationships_of, schema_of, event_row};
ghost use Rattle.tables.specs.Layouts.{sheet_of};
ghost use Rattle.tables.specs.Refusals.{found_of, event_fault};

use tables::{Counts, EVENT_WIDTH};

// Whether an id is one that there can be.
pub fn valid_id(id: u32) -> bool
    ensures { result ≡ valid_id id }
{
    if id == 0 {
        return false;
    }
    id <= meaning::MAX_ID
}

// Whether an id and a type are known.
pub fn known_type(type_count: u32, id: u32, t: u32) -> bool
    ensures { (types : List ℕ) → result ≡ (valid_id id && known_type (types_of type_count types) t) }
{
    if valid_id(id) { t < type_count } else { false }
}

// Whether a relationship and two ids are known.
pub fn known_link(relationship_count: u32, relationship: u32, source: u32, target: u32) -> bool
    ensures { (relationships : List ℕ) →
        result ≡ (known_relationship (relationships_of relationship_count relationships) relationship && valid_id source && valid_id target) }
{
    if relationship >= relationship_count {
        return false;
    }
    if valid_id(source) {
        valid_id(target)
    } else {
        false
    }
}

// Whether an id and a cell are known.
pub fn known_cell(id: u32, cell: u32) -> bool
    ensures { (word : ℕ) → result ≡ (valid_id id && ltb cell cell_count && fits_word (signed word)) }
{
    if valid_id(id) {
        cell < meaning::CELLS
    } else {
        false
    }
}

// Whether the fields are an object's id and a known type.
fn with_type(type_count: u32, x: u32, y: u32, z: u32) -> bool
    ensures { (types : List ℕ) → result ≡ (eqb z 0 && (valid_id x && known_type (types_of type_count types) y)) }
{
    if z != 0 {
        return false;
    }
    known_type(type_count, x, y)
}

// Whether the fields are an object's id alone.
fn alone(x: u32, y: u32, z: u32) -> bool
    ensures { result ≡ (eqb y 0 && (eqb z 0 && valid_id x)) }
{
    if y != 0 {
        return false;
    }
    if z != 0 {
        return false;
    }
    valid_id(x)
}

// Whether an event is known.
pub fn event_known(n: Counts, events: &[u32], row: u32) -> bool
    ensures { (types : List ℕ) (fs : List Floor) (relationships : List ℕ) →
        result ≡ known_event (schema_of n.types types fs n.relationships relationships) (event_row events.now row) }
{
    let kind = rows::word(events, EVENT_WIDTH, row, 0);
    let x = rows::word(events, EVENT_WIDTH, row, 1);
    let y = rows::word(events, EVENT_WIDTH, row, 2);
    let z = rows::word(events, EVENT_WIDTH, row, 3);
    if 7 <= kind {
        return false;
    }
    if kind == 1 {
        return alone(x, y, z);
    }
    if kind == 2 {
        return known_cell(x, y);
    }
    if kind == 3 {
        return known_link(n.relationships, x, y, z);
    }
    if kind == 4 {
        return known_link(n.relationships, x, y, z);
    }
    with_type(n.types, x, y, z)
}

// The first event that is not known.
pub fn first_unknown(n: Counts, events: &[u32]) -> Option<u32>
    ensures { (types floors relationships rules bodies objects links : List ℕ) →
        result ≡ found_of (event_fault n (sheet_of types floors relationships rules bodies objects links events.now)) }
{
    let used = n.events;
    for row in 0..used {
        if !event_known(n, events, row) {
            return Some(row);
        }
    }
    None
}
