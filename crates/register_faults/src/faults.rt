// The rows that break refusal 5: objects and links by their order and by the limits.
ghost use Rattle.std.specs.Prelude.{◌≡◌, List, drop};
ghost use Rattle.meaning.specs.Lists.{ascends, every};
ghost use Rattle.meaning.specs.Schema.{Floor};
ghost use Rattle.meaning.specs.Register.{Link, object_key, link_key, is_under, is_zero, object_fits, faulty_object, link_fits, faulty_link, object_fault, link_fault};
ghost use Rattle.tables.specs.Columns.{object_row, link_row, types_of, floors_of, schema_of, register_of};
ghost use Rattle.tables.specs.Refusals.{found_of};
ghost use Rattle.schema.specs.Previous.{previous_row};
ghost use Rattle.register.specs.Tables.{objects_with, ObjectsAscend};

use register::floors::below_floor;
use register::{columns, search};

// Whether the cells of an object's row from one on are 0.
fn zero_from(objects: &[u32], row: u32, cells: u32) -> bool
    ensures { result ≡ every is_zero (drop cells (object_row objects.now row).cells) }
{
    for cell in cells..meaning::CELLS {
        if columns::cell_of(objects, row, cell) != 0 {
            return false;
        }
    }
    true
}

// Whether an object's row keeps the limits by itself: its id, its type, 0 in the cells that its type lacks, and its type's floors.
fn object_fits(
    type_count: u32,
    types: &[u32],
    floor_count: u32,
    floors: &[u32],
    objects: &[u32],
    row: u32,
) -> bool
    ensures { result ≡ object_fits (types_of type_count types.now) (floors_of floor_count floors.now)
        (object_row objects.now row) }
{
    let id = columns::id_of(objects, row);
    if id == 0 {
        return false;
    }
    if id > meaning::MAX_ID {
        return false;
    }
    let t = columns::type_of(objects, row);
    if t >= type_count {
        return false;
    }
    if zero_from(objects, row, schema::cells_of(type_count, types, t)) {
        !below_floor(type_count, types, floor_count, floors, objects, row, t)
    } else {
        false
    }
}

// Whether an object's row comes after the one before it.
fn object_ascends(objects: &[u32], row: u32) -> bool
    ensures { result ≡ ascends object_key (previous_row (object_row objects.now) row) (object_row objects.now row) }
{
    if row == 0 {
        return true;
    }
    let key = [columns::id_of(objects, row)];
    keys::before(objects, tables::OBJECT_WIDTH, row - 1, 1, &key)
}

// Whether an object's row breaks refusal 5.
fn faulty_object(
    type_count: u32,
    types: &[u32],
    floor_count: u32,
    floors: &[u32],
    objects: &[u32],
    row: u32,
) -> bool
    ensures { result ≡ faulty_object (types_of type_count types.now) (floors_of floor_count floors.now) row
        (previous_row (object_row objects.now) row) (object_row objects.now row) }
{
    if object_ascends(objects, row) {
        !object_fits(type_count, types, floor_count, floors, objects, row)
    } else {
        true
    }
}

// The first faulty object, if there is one.
pub fn object_fault(
    type_count: u32,
    types: &[u32],
    floor_count: u32,
    floors: &[u32],
    object_count: u32,
    objects: &[u32],
) -> Option<u32>
    ensures { (ls : List Link) →
        result ≡ found_of (object_fault (types_of type_count types.now) (floors_of floor_count floors.now)
        (objects_with object_count objects.now ls)) }
{
    for row in 0..object_count {
        if faulty_object(type_count, types, floor_count, floors, objects, row) {
            return Some(row);
        }
    }
    None
}

// Whether the object of an id is there and its type is under t.
fn is_under(
    type_count: u32,
    types: &[u32],
    object_count: u32,
    objects: &[u32],
    table: &[u16; 4096],
    id: u32,
    t: u32,
) -> bool
    requires { ObjectsAscend object_count objects.now }
    ensures { (ls : List Link) →
        result ≡ is_under (types_of type_count types.now) (objects_with object_count objects.now ls) id t }
{
    match search::quick_row(object_count, objects, table, id) {
        Some(row) => schema::under(type_count, types, columns::type_of(objects, row), t),
        None => false,
    }
}

// Whether a link's row keeps the limits by itself: its relationship, and its objects there and under the end types.
fn link_fits(
    type_count: u32,
    types: &[u32],
    relationship_count: u32,
    relationships: &[u32],
    object_count: u32,
    objects: &[u32],
    table: &[u16; 4096],
    links: &[u32],
    row: u32,
) -> bool
    requires { ObjectsAscend object_count objects.now }
    ensures { (fs : List Floor) (ls : List Link) →
        result ≡ link_fits (schema_of type_count types.now fs relationship_count relationships.now)
        (objects_with object_count objects.now ls) (link_row links.now row) }
{
    let relationship = columns::relationship_of(links, row);
    if relationship >= relationship_count {
        return false;
    }
    let source = schema::source_type(relationship_count, relationships, relationship);
    if is_under(
        type_count,
        types,
        object_count,
        objects,
        table,
        columns::source_of(links, row),
        source,
    ) {
        let target = schema::target_type(relationship_count, relationships, relationship);
        is_under(
            type_count,
            types,
            object_count,
            objects,
            table,
            columns::target_of(links, row),
            target,
        )
    } else {
        false
    }
}

// Whether a link's row comes after the one before it.
fn link_ascends(links: &[u32], row: u32) -> bool
    ensures { result ≡ ascends link_key (previous_row (link_row links.now) row) (link_row links.now row) }
{
    if row == 0 {
        return true;
    }
    let key = [
        columns::relationship_of(links, row),
        columns::source_of(links, row),
        columns::target_of(links, row),
    ];
    keys::before(links, tables::LINK_WIDTH, row - 1, 3, &key)
}

// Whether a link's row breaks refusal 5.
fn faulty_link(
    type_count: u32,
    types: &[u32],
    relationship_count: u32,
    relationships: &[u32],
    object_count: u32,
    objects: &[u32],
    table: &[u16; 4096],
    links: &[u32],
    row: u32,
) -> bool
    requires { ObjectsAscend object_count objects.now }
    ensures { (fs : List Floor) (ls : List Link) →
        result ≡ faulty_link (schema_of type_count types.now fs relationship_count relationships.now)
        (objects_with object_count objects.now ls) row
        (previous_row (link_row links.now) row) (link_row links.now row) }
{
    if link_ascends(links, row) {
        !link_fits(
            type_count,
            types,
            relationship_count,
            relationships,
            object_count,
            objects,
            table,
            links,
            row,
        )
    } else {
        true
    }
}

// The first faulty link, if there is one.
pub fn link_fault(
    type_count: u32,
    types: &[u32],
    relationship_count: u32,
    relationships: &[u32],
    object_count: u32,
    objects: &[u32],
    table: &[u16; 4096],
    link_count: u32,
    links: &[u32],
) -> Option<u32>
    requires { ObjectsAscend object_count objects.now }
    ensures { (fs : List Floor) → result ≡ found_of (link_fault
        (schema_of type_count types.now fs relationship_count relationships.now)
        (register_of object_count objects.now link_count links.now)) }
{
    for row in 0..link_count {
        if faulty_link(
            type_count,
            types,
            relationship_count,
            relationships,
            object_count,
            objects,
            table,
            links,
            row,
        ) {
            return Some(row);
        }
    }
    None
}
