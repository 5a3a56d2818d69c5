// Document 01's schema as lent tables: what is under what, floors, the ends of relationships and roles, and refusal 3.
#![tactic(auto)]

pub mod floors;

ghost use Rattle.std.specs.Prelude.{◌≡◌, cond, List, ℕ, ltb};
ghost use Rattle.std.proofs.Math.Option.{Option};
ghost use Rattle.meaning.specs.Lists.{first_of};
ghost use Rattle.meaning.specs.Schema.{ObjectType, Floor, Relationship, parent_of, cells_of, has_parent, under, source_type, target_type, near_type, far_type, faulty_type, faulty_relationship, type_fault, floor_fault, relationship_fault};
ghost use Rattle.rows.specs.Rows.{word_at};
ghost use Rattle.tables.specs.Columns.{type_row, relationship_row, types_of, floors_of, relationships_of, schema_of};
ghost use Rattle.tables.specs.Refusals.{found_of};

// The word that stands for no parent.
const NO_PARENT: u32 = 0xFFFF_FFFF;

// The word in a column of a used row of a table of two columns; 0 past the used rows.
fn used_word(count: u32, table: &[u32], row: u32, column: u32) -> u32
    ensures { result ≡ cond (ltb row count) (word_at table.now 2 row column) 0 }
{
    if row < count {
        rows::word(table, 2, row, column)
    } else {
        0
    }
}

// The type's parent, if it has one.
fn parent_of(type_count: u32, types: &[u32], t: u32) -> Option<u32>
    ensures { result ≡ found_of (parent_of (types_of type_count types.now) t) }
{
    if t < type_count {
        let p = rows::word(types, tables::TYPE_WIDTH, t, 0);
        if p == NO_PARENT { None } else { Some(p) }
    } else {
        None
    }
}

// Whether a type has a parent.
pub fn has_parent(type_count: u32, types: &[u32], t: u32) -> bool
    ensures { result ≡ has_parent (types_of type_count types.now) t }
{
    parent_of(type_count, types, t).is_some()
}

// The number of cells of a type.
pub fn cells_of(type_count: u32, types: &[u32], t: u32) -> u32
    ensures { result ≡ cells_of (types_of type_count types.now) t }
{
    used_word(type_count, types, t, 1)
}

// Whether type t is u, or under it.
pub fn under(type_count: u32, types: &[u32], t: u32, u: u32) -> bool
    ensures { result ≡ under (types_of type_count types.now) t u }
{
    let mut at = t;
    for _ in 0..t {
        if at == u {
            return true;
        }
        match parent_of(type_count, types, at) {
            Some(parent) => at = parent,
            None => return false,
        }
    }
    at == u
}

// The type at the source of a relationship.
pub fn source_type(relationship_count: u32, relationships: &[u32], relationship: u32) -> u32
    ensures { result ≡ source_type (relationships_of relationship_count relationships.now) relationship }
{
    used_word(relationship_count, relationships, relationship, 0)
}

// The type at the target of a relationship.
pub fn target_type(relationship_count: u32, relationships: &[u32], relationship: u32) -> u32
    ensures { result ≡ target_type (relationships_of relationship_count relationships.now) relationship }
{
    used_word(relationship_count, relationships, relationship, 1)
}

// The type at which a role starts.
pub fn near_type(relationship_count: u32, relationships: &[u32], role: u32) -> u32
    ensures { result ≡ near_type (relationships_of relationship_count relationships.now) role }
{
    if role % 2 == 0 {
        source_type(relationship_count, relationships, role / 2)
    } else {
        target_type(relationship_count, relationships, role / 2)
    }
}

// The type to which a role leads.
pub fn far_type(relationship_count: u32, relationships: &[u32], role: u32) -> u32
    ensures { result ≡ far_type (relationships_of relationship_count relationships.now) role }
{
    if role % 2 == 0 {
        target_type(relationship_count, relationships, role / 2)
    } else {
        source_type(relationship_count, relationships, role / 2)
    }
}

// Whether the row of a type breaks refusal 3: too many cells, or a parent that is not lower or has more cells.
fn faulty_type(type_count: u32, types: &[u32], t: u32) -> bool
    ensures { (previous : Option ObjectType) →
        result ≡ faulty_type (types_of type_count types.now) t previous (type_row types.now t) }
{
    let cells = rows::word(types, tables::TYPE_WIDTH, t, 1);
    if cells > meaning::CELLS {
        return true;
    }
    let parent = rows::word(types, tables::TYPE_WIDTH, t, 0);
    if parent == NO_PARENT {
        return false;
    }
    if parent < t {
        cells_of(type_count, types, parent) > cells
    } else {
        true
    }
}

// The first faulty type, if there is one.
fn type_fault(type_count: u32, types: &[u32]) -> Option<u32>
    ensures { result ≡ found_of (type_fault (types_of type_count types.now)) }
{
    for t in 0..type_count {
        if faulty_type(type_count, types, t) {
            return Some(t);
        }
    }
    None
}

// Whether the row of a relationship breaks refusal 3: an end of no known type.
fn faulty_relationship(type_count: u32, relationships: &[u32], relationship: u32) -> bool
    ensures { (types : List ℕ) (previous : Option Relationship) →
        result ≡ faulty_relationship (types_of type_count types) relationship previous (relationship_row relationships.now relationship) }
{
    let source = rows::word(relationships, tables::RELATIONSHIP_WIDTH, relationship, 0);
    if source >= type_count {
        return true;
    }
    rows::word(relationships, tables::RELATIONSHIP_WIDTH, relationship, 1) >= type_count
}

// The first faulty relationship, if there is one.
fn relationship_fault(
    type_count: u32,
    relationship_count: u32,
    relationships: &[u32],
) -> Option<u32>
    ensures { (types : List ℕ) (floors : List Floor) →
        result ≡ found_of (relationship_fault (schema_of type_count types floors relationship_count relationships.now)) }
{
    for relationship in 0..relationship_count {
        if faulty_relationship(type_count, relationships, relationship) {
            return Some(relationship);
        }
    }
    None
}

// Refusal 3: the first faulty type, else the first faulty floor, else the first faulty relationship.
pub fn check(
    type_count: u32,
    types: &[u32],
    floor_count: u32,
    floors: &[u32],
    relationship_count: u32,
    relationships: &[u32],
) -> Option<u32>
    ensures { let S = schema_of type_count types.now (floors_of floor_count floors.now)
        relationship_count relationships.now in
        result ≡ found_of (first_of (type_fault S.types) (first_of (floor_fault S) (relationship_fault S))) }
{
    let t = type_fault(type_count, types);
    let f = floors::floor_fault(type_count, types, floor_count, floors);
    let r = relationship_fault(type_count, relationship_count, relationships);
    t.or(f.or(r))
}
