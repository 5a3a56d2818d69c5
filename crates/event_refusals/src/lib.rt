// Document 01's refusals 7 to 13 of one event, and 15 of Req 02, on the register that it meets.
#![tactic(auto)]

ghost use Rattle.std.specs.Prelude.{◌≡◌, List, ℕ, ◌≤◌};
ghost use Rattle.meaning.specs.Schema.{ObjectType, Floor, Relationship, Schema};
ghost use Rattle.meaning.specs.Register.{Link};
ghost use Rattle.meaning.specs.Events.{Lent, event_refusal, insert, delete, set, join, part, special, general};
ghost use Rattle.tables.specs.Columns.{types_of, floors_of, relationships_of, schema_of, register_of, event_of, event_row};
ghost use Rattle.rows.specs.Rows.{signed};
ghost use Rattle.tables.specs.Refusals.{found_of};
ghost use Rattle.register.specs.Tables.{objects_with, ObjectsAscend, LinksAscend};

use event_tests::{
    both_present, both_under, brought_below, full, has_cell, has_link, is_present, set_below,
    strictly_above, strictly_under, type_needed,
};
use known_events::{known_cell, known_link, known_type, valid_id};

// The first refusal that an insert meets.
fn of_insert(
    type_count: u32,
    lent: usize,
    count: u32,
    objects: &[u32],
    id: u32,
    t: u32,
) -> Option<u32>
    requires { ObjectsAscend count objects.now }
    ensures { (types : List ℕ) (fs : List Floor) (rs : List Relationship) (ls : List Link) (m w : ℕ) → result ≡ found_of (event_refusal
        (record { types = types_of type_count types; floors = fs; relationships = rs }) (record { objects = lent; links = m; words = w })
        (objects_with count objects.now ls) (insert id t)) }
{
    if !known_type(type_count, id, t) {
        return Some(7);
    }
    if is_present(count, objects, id) {
        return Some(9);
    }
    if full(meaning::MAX_OBJECTS, lent, count) {
        return Some(13);
    }
    None
}

// The first refusal that a delete meets. Its links go with the object, so that no link stands against it.
fn of_delete(count: u32, objects: &[u32], id: u32) -> Option<u32>
    requires { ObjectsAscend count objects.now }
    ensures { (S : Schema) (lent : Lent) (ls : List Link) → result ≡ found_of (event_refusal S lent
        (objects_with count objects.now ls) (delete id)) }
{
    if !valid_id(id) {
        return Some(7);
    }
    if is_present(count, objects, id) {
        return None;
    }
    Some(8)
}

// The first refusal that a set meets.
fn of_set(
    type_count: u32,
    types: &[u32],
    floor_count: u32,
    floors: &[u32],
    count: u32,
    objects: &[u32],
    id: u32,
    cell: u32,
    word: u32,
) -> Option<u32>
    requires { ObjectsAscend count objects.now }
    ensures { (rs : List Relationship) (lent : Lent) (ls : List Link) → result ≡ found_of (event_refusal
        (record { types = types_of type_count types.now; floors = floors_of floor_count floors.now; relationships = rs }) lent
        (objects_with count objects.now ls) (set id cell (signed word))) }
{
    if !known_cell(id, cell) {
        return Some(7);
    }
    if !is_present(count, objects, id) {
        return Some(8);
    }
    if !has_cell(type_count, types, count, objects, id, cell) {
        return Some(11);
    }
    if set_below(
        type_count,
        types,
        floor_count,
        floors,
        count,
        objects,
        id,
        cell,
        word,
    ) {
        return Some(15);
    }
    None
}

// The first refusal that a join meets.
fn of_join(
    type_count: u32,
    types: &[u32],
    relationship_count: u32,
    relationships: &[u32],
    lent: usize,
    object_count: u32,
    objects: &[u32],
    link_count: u32,
    links: &[u32],
    relationship: u32,
    source: u32,
    target: u32,
) -> Option<u32>
    requires { (ObjectsAscend object_count objects.now) × (LinksAscend link_count links.now) }
    ensures { (fs : List Floor) (m w : ℕ) → result ≡ found_of (event_refusal
        (schema_of type_count types.now fs relationship_count relationships.now)
        (record { objects = m; links = lent; words = w })
        (register_of object_count objects.now link_count links.now)
        (join relationship source target)) }
{
    if !known_link(relationship_count, relationship, source, target) {
        return Some(7);
    }
    if !both_present(object_count, objects, source, target) {
        return Some(8);
    }
    if has_link(link_count, links, relationship, source, target) {
        return Some(9);
    }
    if !both_under(
        type_count,
        types,
        relationship_count,
        relationships,
        object_count,
        objects,
        relationship,
        source,
        target,
    ) {
        return Some(11);
    }
    if full(meaning::MAX_LINKS, lent, link_count) {
        return Some(13);
    }
    None
}

// The first refusal that a part meets.
fn of_part(
    relationship_count: u32,
    object_count: u32,
    objects: &[u32],
    link_count: u32,
    links: &[u32],
    relationship: u32,
    source: u32,
    target: u32,
) -> Option<u32>
    requires { (ObjectsAscend object_count objects.now) × (LinksAscend link_count links.now) }
    ensures { (types : List ObjectType) (fs : List Floor) (relationships : List ℕ) (lent : Lent) → result ≡ found_of (event_refusal
        (record { types = types; floors = fs; relationships = relationships_of relationship_count relationships }) lent
        (register_of object_count objects.now link_count links.now)
        (part relationship source target)) }
{
    if !known_link(relationship_count, relationship, source, target) {
        return Some(7);
    }
    if !both_present(object_count, objects, source, target) {
        return Some(8);
    }
    if !has_link(link_count, links, relationship, source, target) {
        return Some(10);
    }
    None
}

// The first refusal that a special into a type meets.
fn of_special(
    type_count: u32,
    types: &[u32],
    floor_count: u32,
    floors: &[u32],
    count: u32,
    objects: &[u32],
    id: u32,
    into: u32,
) -> Option<u32>
    requires { ObjectsAscend count objects.now }
    ensures { (rs : List Relationship) (lent : Lent) (ls : List Link) → result ≡ found_of (event_refusal
        (record { types = types_of type_count types.now; floors = floors_of floor_count floors.now; relationships = rs }) lent
        (objects_with count objects.now ls) (special id into)) }
{
    if !known_type(type_count, id, into) {
        return Some(7);
    }
    if !is_present(count, objects, id) {
        return Some(8);
    }
    if !strictly_above(type_count, types, count, objects, id, into) {
        return Some(11);
    }
    if brought_below(
        type_count,
        types,
        floor_count,
        floors,
        count,
        objects,
        id,
        into,
    ) {
        return Some(15);
    }
    None
}

// The first refusal that a general meets.
fn of_general(
    type_count: u32,
    types: &[u32],
    relationship_count: u32,
    relationships: &[u32],
    object_count: u32,
    objects: &[u32],
    link_count: u32,
    links: &[u32],
    id: u32,
    t: u32,
) -> Option<u32>
    requires { ObjectsAscend object_count objects.now }
    ensures { (fs : List Floor) (lent : Lent) → result ≡ found_of (event_refusal
        (schema_of type_count types.now fs relationship_count relationships.now) lent
        (register_of object_count objects.now link_count links.now) (general id t)) }
{
    if !known_type(type_count, id, t) {
        return Some(7);
    }
    if !is_present(object_count, objects, id) {
        return Some(8);
    }
    if !strictly_under(type_count, types, object_count, objects, id, t) {
        return Some(11);
    }
    if type_needed(
        type_count,
        types,
        relationship_count,
        relationships,
        link_count,
        links,
        id,
        t,
    ) {
        return Some(12);
    }
    None
}

// The first refusal that a join or a part meets.
fn of_link_event(
    type_count: u32,
    types: &[u32],
    relationship_count: u32,
    relationships: &[u32],
    lent: usize,
    object_count: u32,
    objects: &[u32],
    link_count: u32,
    links: &[u32],
    kind: u32,
    x: u32,
    y: u32,
    z: u32,
) -> Option<u32>
    requires { (ObjectsAscend object_count objects.now) × (LinksAscend link_count links.now) × (3 ≤ kind) × (kind ≤ 4) }
    ensures { (fs : List Floor) (m w : ℕ) → result ≡ found_of (event_refusal
        (schema_of type_count types.now fs relationship_count relationships.now)
        (record { objects = m; links = lent; words = w })
        (register_of object_count objects.now link_count links.now)
        (event_of kind x y z)) }
{
    if kind == 3 {
        return of_join(
            type_count,
            types,
            relationship_count,
            relationships,
            lent,
            object_count,
            objects,
            link_count,
            links,
            x,
            y,
            z,
        );
    }
    of_part(
        relationship_count,
        object_count,
        objects,
        link_count,
        links,
        x,
        y,
        z,
    )
}

// The first refusal that an event of at most two fields meets. A field that its kind does not use is 0, else 7 is met, as for an unknown kind.
fn of_short_event(
    type_count: u32,
    types: &[u32],
    floor_count: u32,
    floors: &[u32],
    relationship_count: u32,
    relationships: &[u32],
    lent: usize,
    object_count: u32,
    objects: &[u32],
    link_count: u32,
    links: &[u32],
    kind: u32,
    x: u32,
    y: u32,
    z: u32,
) -> Option<u32>
    requires { (ObjectsAscend object_count objects.now) × (kind ≡ 2 → ⊥) × (kind ≡ 3 → ⊥) × (kind ≡ 4 → ⊥) }
    ensures { (m w : ℕ) → result ≡ found_of (event_refusal
        (schema_of type_count types.now (floors_of floor_count floors.now) relationship_count relationships.now)
        (record { objects = lent; links = m; words = w })
        (register_of object_count objects.now link_count links.now)
        (event_of kind x y z)) }
{
    if z != 0 {
        return Some(7);
    }
    if kind == 0 {
        return of_insert(type_count, lent, object_count, objects, x, y);
    }
    if kind == 5 {
        return of_special(
            type_count,
            types,
            floor_count,
            floors,
            object_count,
            objects,
            x,
            y,
        );
    }
    if kind == 6 {
        return of_general(
            type_count,
            types,
            relationship_count,
            relationships,
            object_count,
            objects,
            link_count,
            links,
            x,
            y,
        );
    }
    if kind != 1 {
        return Some(7);
    }
    if y != 0 {
        return Some(7);
    }
    of_delete(object_count, objects, x)
}

// The first refusal that an event of three fields meets.
fn of_event(
    type_count: u32,
    types: &[u32],
    floor_count: u32,
    floors: &[u32],
    relationship_count: u32,
    relationships: &[u32],
    objects_lent: usize,
    links_lent: usize,
    object_count: u32,
    objects: &[u32],
    link_count: u32,
    links: &[u32],
    kind: u32,
    x: u32,
    y: u32,
    z: u32,
) -> Option<u32>
    requires { (ObjectsAscend object_count objects.now) × (LinksAscend link_count links.now) }
    ensures { (w : ℕ) → result ≡ found_of (event_refusal
        (schema_of type_count types.now (floors_of floor_count floors.now) relationship_count relationships.now)
        (record { objects = objects_lent; links = links_lent; words = w })
        (register_of object_count objects.now link_count links.now)
        (event_of kind x y z)) }
{
    match kind {
        2 => of_set(
            type_count,
            types,
            floor_count,
            floors,
            object_count,
            objects,
            x,
            y,
            z,
        ),
        3 | 4 => of_link_event(
            type_count,
            types,
            relationship_count,
            relationships,
            links_lent,
            object_count,
            objects,
            link_count,
            links,
            kind,
            x,
            y,
            z,
        ),
        _ => of_short_event(
            type_count,
            types,
            floor_count,
            floors,
            relationship_count,
            relationships,
            objects_lent,
            object_count,
            objects,
            link_count,
            links,
            kind,
            x,
            y,
            z,
        ),
    }
}

// The first refusal that the event in a row of the table of events meets, on the register that it meets.
pub fn refusal(
    type_count: u32,
    types: &[u32],
    floor_count: u32,
    floors: &[u32],
    relationship_count: u32,
    relationships: &[u32],
    objects_lent: usize,
    links_lent: usize,
    object_count: u32,
    objects: &[u32],
    link_count: u32,
    links: &[u32],
    events: &[u32],
    row: u32,
) -> Option<u32>
    requires { (ObjectsAscend object_count objects.now) × (LinksAscend link_count links.now) }
    ensures { (w : ℕ) → result ≡ found_of (event_refusal
        (schema_of type_count types.now (floors_of floor_count floors.now) relationship_count relationships.now)
        (record { objects = objects_lent; links = links_lent; words = w })
        (register_of object_count objects.now link_count links.now)
        (event_row events.now row)) }
{
    let kind = rows::word(events, tables::EVENT_WIDTH, row, 0);
    let x = rows::word(events, tables::EVENT_WIDTH, row, 1);
    let y = rows::word(events, tables::EVENT_WIDTH, row, 2);
    let z = rows::word(events, tables::EVENT_WIDTH, row, 3);
    of_event(
        type_count,
        types,
        floor_count,
        floors,
        relationship_count,
        relationships,
        objects_lent,
        links_lent,
        object_count,
        objects,
        link_count,
        links,
        kind,
        x,
        y,
        z,
    )
}
