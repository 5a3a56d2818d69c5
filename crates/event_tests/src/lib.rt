// What the refusals of an event ask of the register that it meets.
#![tactic(auto)]

ghost use Rattle.std.specs.Prelude.{◌≡◌, ◌&&◌, not, List, min, leb, eqb};
ghost use Rattle.meaning.specs.Schema.{Floor, Relationship, under, source_type, target_type};
ghost use Rattle.meaning.specs.Register.{Object, Link, present, is_under, has_link};
ghost use Rattle.meaning.specs.Events.{needs_type, type_needed, strictly_above, strictly_under, has_cell, set_below, brought_below, link_of};
ghost use Rattle.rows.specs.Rows.{signed};
ghost use Rattle.tables.specs.Columns.{types_of, floors_of, relationships_of, schema_of, link_row};
ghost use Rattle.register.specs.Tables.{objects_with, links_with, ObjectsAscend, LinksAscend};

use register::columns;

// Whether no row is left below the limit and the lent rows.
pub fn full(limit: u32, lent: usize, used: u32) -> bool
    ensures { result ≡ leb (min limit lent) used }
{
    if limit <= used {
        return true;
    }
    lent <= (used as usize)
}

// Whether the object of an id is there.
pub fn is_present(count: u32, objects: &[u32], id: u32) -> bool
    requires { ObjectsAscend count objects.now }
    ensures { (ls : List Link) → result ≡ present (objects_with count objects.now ls) id }
{
    match register::object_row(count, objects, id) {
        Some(_) => true,
        None => false,
    }
}

// Whether the object of an id is there and its type is under t.
fn is_under(type_count: u32, types: &[u32], count: u32, objects: &[u32], id: u32, t: u32) -> bool
    requires { ObjectsAscend count objects.now }
    ensures { (ls : List Link) →
        result ≡ is_under (types_of type_count types.now) (objects_with count objects.now ls) id t }
{
    match register::object_row(count, objects, id) {
        Some(row) => schema::under(type_count, types, columns::type_of(objects, row), t),
        None => false,
    }
}

// Whether the type of the object of an id has a cell.
pub fn has_cell(
    type_count: u32,
    types: &[u32],
    count: u32,
    objects: &[u32],
    id: u32,
    cell: u32,
) -> bool
    requires { ObjectsAscend count objects.now }
    ensures { (ls : List Link) →
        result ≡ has_cell (types_of type_count types.now) (objects_with count objects.now ls) id cell }
{
    match register::object_row(count, objects, id) {
        Some(row) => cell < schema::cells_of(type_count, types, columns::type_of(objects, row)),
        None => false,
    }
}

// Whether the type of the object of an id is strictly above t.
pub fn strictly_above(
    type_count: u32,
    types: &[u32],
    count: u32,
    objects: &[u32],
    id: u32,
    t: u32,
) -> bool
    requires { ObjectsAscend count objects.now }
    ensures { (ls : List Link) →
        result ≡ strictly_above (types_of type_count types.now) (objects_with count objects.now ls) id t }
{
    match register::object_row(count, objects, id) {
        Some(row) => {
            let own = columns::type_of(objects, row);
            if schema::under(type_count, types, t, own) {
                t != own
            } else {
                false
            }
        }
        None => false,
    }
}

// Whether the type of the object of an id is strictly under t.
pub fn strictly_under(
    type_count: u32,
    types: &[u32],
    count: u32,
    objects: &[u32],
    id: u32,
    t: u32,
) -> bool
    requires { ObjectsAscend count objects.now }
    ensures { (ls : List Link) →
        result ≡ strictly_under (types_of type_count types.now) (objects_with count objects.now ls) id t }
{
    match register::object_row(count, objects, id) {
        Some(row) => {
            let own = columns::type_of(objects, row);
            if schema::under(type_count, types, own, t) {
                t != own
            } else {
                false
            }
        }
        None => false,
    }
}

// 15 of a set: whether a word is below 0, and the type of the object of an id has the cell floored.
pub fn set_below(
    type_count: u32,
    types: &[u32],
    floor_count: u32,
    floors: &[u32],
    count: u32,
    objects: &[u32],
    id: u32,
    cell: u32,
    word: u32,
) -> bool
    requires { ObjectsAscend count objects.now }
    ensures { (rs : List Relationship) (ls : List Link) → result ≡ set_below
        (record { types = types_of type_count types.now; floors = floors_of floor_count floors.now; relationships = rs })
        (objects_with count objects.now ls) id cell (signed word) }
{
    if !signed::is_negative(word) {
        return false;
    }
    match register::object_row(count, objects, id) {
        Some(row) => {
            let t = columns::type_of(objects, row);
            schema::floors::floored(type_count, types, floor_count, floors, t, cell)
        }
        None => false,
    }
}

// 15 of a special: whether the object of an id is below a floor of type t.
pub fn brought_below(
    type_count: u32,
    types: &[u32],
    floor_count: u32,
    floors: &[u32],
    count: u32,
    objects: &[u32],
    id: u32,
    t: u32,
) -> bool
    requires { ObjectsAscend count objects.now }
    ensures { (rs : List Relationship) (ls : List Link) → result ≡ brought_below
        (record { types = types_of type_count types.now; floors = floors_of floor_count floors.now; relationships = rs })
        (objects_with count objects.now ls) id t }
{
    match register::object_row(count, objects, id) {
        Some(row) => register::floors::below_floor(
            type_count,
            types,
            floor_count,
            floors,
            objects,
            row,
            t,
        ),
        None => false,
    }
}

// Whether a link is there.
pub fn has_link(count: u32, links: &[u32], relationship: u32, source: u32, target: u32) -> bool
    requires { LinksAscend count links.now }
    ensures { (os : List Object) →
        result ≡ has_link (links_with os count links.now) (link_of relationship source target) }
{
    match register::link_row(count, links, relationship, source, target) {
        Some(_) => true,
        None => false,
    }
}

// Whether a link's end is the object, and t is not under the type of that end.
fn end_needs(type_count: u32, types: &[u32], end: u32, end_type: u32, id: u32, t: u32) -> bool
    ensures { result ≡ eqb end id && not (under (types_of type_count types.now) t end_type) }
{
    if end == id {
        !schema::under(type_count, types, t, end_type)
    } else {
        false
    }
}

// Whether a link's row needs its object out of type t, at one of its ends or the other.
fn needs_type(
    type_count: u32,
    types: &[u32],
    relationship_count: u32,
    relationships: &[u32],
    links: &[u32],
    row: u32,
    id: u32,
    t: u32,
) -> bool
    ensures { (fs : List Floor) →
        result ≡ needs_type (schema_of type_count types.now fs relationship_count relationships.now)
        id t (link_row links.now row) }
{
    let relationship = columns::relationship_of(links, row);
    let source = columns::source_of(links, row);
    let source_type = schema::source_type(relationship_count, relationships, relationship);
    if end_needs(type_count, types, source, source_type, id, t) {
        return true;
    }
    let target = columns::target_of(links, row);
    let target_type = schema::target_type(relationship_count, relationships, relationship);
    end_needs(type_count, types, target, target_type, id, t)
}

// 12 of a general: whether some link needs the object out of type t.
pub fn type_needed(
    type_count: u32,
    types: &[u32],
    relationship_count: u32,
    relationships: &[u32],
    count: u32,
    links: &[u32],
    id: u32,
    t: u32,
) -> bool
    ensures { (fs : List Floor) (os : List Object) → result ≡ type_needed
        (schema_of type_count types.now fs relationship_count relationships.now)
        (links_with os count links.now) id t }
{
    for row in 0..count {
        if needs_type(
            type_count,
            types,
            relationship_count,
            relationships,
            links,
            row,
            id,
            t,
        ) {
            return true;
        }
    }
    false
}

// Whether the objects of two ids are there.
pub fn both_present(count: u32, objects: &[u32], source: u32, target: u32) -> bool
    requires { ObjectsAscend count objects.now }
    ensures { (ls : List Link) →
        result ≡ (present (objects_with count objects.now ls) source && present (objects_with count objects.now ls) target) }
{
    if is_present(count, objects, source) {
        is_present(count, objects, target)
    } else {
        false
    }
}

// Whether the objects of two ids are under the types of a relationship's ends.
pub fn both_under(
    type_count: u32,
    types: &[u32],
    relationship_count: u32,
    relationships: &[u32],
    count: u32,
    objects: &[u32],
    relationship: u32,
    source: u32,
    target: u32,
) -> bool
    requires { ObjectsAscend count objects.now }
    ensures { (ls : List Link) → result ≡
        (is_under (types_of type_count types.now) (objects_with count objects.now ls) source
        (source_type (relationships_of relationship_count relationships.now) relationship)
        && is_under (types_of type_count types.now) (objects_with count objects.now ls) target
        (target_type (relationships_of relationship_count relationships.now) relationship)) }
{
    let source_type = schema::source_type(relationship_count, relationships, relationship);
    if is_under(type_count, types, count, objects, source, source_type) {
        let target_type = schema::target_type(relationship_count, relationships, relationship);
        is_under(type_count, types, count, objects, target, target_type)
    } else {
        false
    }
}
