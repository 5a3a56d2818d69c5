// What an event that is not refused does to the table of objects or of links. Each answers how many rows are used after it.
ghost use Rattle.std.specs.Prelude.{◌≤◌, ◌<◌, List, ◌≡◌};
ghost use Rattle.meaning.specs.Limits.{cell_count};
ghost use Rattle.meaning.specs.Schema.{Schema, Floor, Relationship, cells_of};
ghost use Rattle.meaning.specs.Events.{insert, delete, set, join, part, special, general, link_of};
ghost use Rattle.rows.specs.Rows.{signed};
ghost use Rattle.tables.specs.Columns.{types_of, register_of, no_event, event_of, event_row};
ghost use Rattle.event_effects.specs.Effects.{Can, Applied, ObjectsApplied, LinksApplied, CanInsert, CanChange, CanDelete, CanJoin, CanPart, LossRoom, LossesKept};

use crate::Held;
use crate::deletes::take_links;

// Insert: a row in the place of the id, with cells 0.
fn put_object(count: u32, objects: &mut [u32], id: u32, t: u32) -> u32
    requires { CanInsert count objects.old id }
    ensures { (S : Schema) → ObjectsApplied S (insert id t) count objects.old result objects.new }
{
    let key = [id];
    let at = keys::place(&*objects, tables::OBJECT_WIDTH, count, 1, &key);
    rows::open_gap(&mut *objects, tables::OBJECT_WIDTH, at, count);
    let words = [id, t, 0, 0, 0, 0, 0, 0, 0, 0];
    rows::write_row(&mut *objects, tables::OBJECT_WIDTH, at, &words);
    count + 1
}

// Delete: the object's row taken out.
fn take_object(count: u32, objects: &mut [u32], id: u32) -> u32
    requires { CanChange count objects.old id }
    ensures { (S : Schema) → ObjectsApplied S (delete id) count objects.old result objects.new }
{
    match register::object_row(count, &*objects, id) {
        Some(row) => {
            rows::close_gap(&mut *objects, tables::OBJECT_WIDTH, row, count);
            count - 1
        }
        None => count,
    }
}

// Set: a word in a cell of the object's row.
fn put_cell(count: u32, objects: &mut [u32], id: u32, cell: u32, word: u32)
    requires { (CanChange count objects.old id) × (cell < cell_count) }
    ensures { (S : Schema) → ObjectsApplied S (set id cell (signed word)) count objects.old count objects.new }
{
    match register::object_row(count, &*objects, id) {
        Some(row) => rows::put_word(&mut *objects, tables::OBJECT_WIDTH, row, 2 + cell, word),
        None => {}
    }
}

// Special: the type in the object's row.
fn put_type(count: u32, objects: &mut [u32], id: u32, t: u32)
    requires { CanChange count objects.old id }
    ensures { (S : Schema) → ObjectsApplied S (special id t) count objects.old count objects.new }
{
    match register::object_row(count, &*objects, id) {
        Some(row) => rows::put_word(&mut *objects, tables::OBJECT_WIDTH, row, 1, t),
        None => {}
    }
}

// General: the type in the object's row, and 0 in the cells that it lacks.
fn put_higher_type(type_count: u32, types: &[u32], count: u32, objects: &mut [u32], id: u32, t: u32)
    requires { (CanChange count objects.old id) × (cells_of (types_of type_count types.now) t ≤ cell_count) }
    ensures { (fs : List Floor) (rs : List Relationship) →
        ObjectsApplied (record { types = types_of type_count types.now; floors = fs; relationships = rs })
        (general id t) count objects.old count objects.new }
{
    match register::object_row(count, &*objects, id) {
        Some(row) => {
            rows::put_word(&mut *objects, tables::OBJECT_WIDTH, row, 1, t);
            let cells = schema::cells_of(type_count, types, t);
            rows::clear_columns(&mut *objects, tables::OBJECT_WIDTH, row, 2 + cells);
        }
        None => {}
    }
}

// Join: a row in the place of the link.
fn put_link(count: u32, links: &mut [u32], relationship: u32, source: u32, target: u32) -> u32
    requires { CanJoin count links.old (link_of relationship source target) }
    ensures { (S : Schema) →
        LinksApplied S (join relationship source target) count links.old result links.new }
{
    let key = [relationship, source, target];
    let at = keys::place(&*links, tables::LINK_WIDTH, count, 3, &key);
    rows::open_gap(&mut *links, tables::LINK_WIDTH, at, count);
    rows::write_row(&mut *links, tables::LINK_WIDTH, at, &key);
    count + 1
}

// Part: the link's row taken out.
fn take_link(count: u32, links: &mut [u32], relationship: u32, source: u32, target: u32) -> u32
    requires { CanPart count links.old (link_of relationship source target) }
    ensures { (S : Schema) →
        LinksApplied S (part relationship source target) count links.old result links.new }
{
    match register::link_row(count, &*links, relationship, source, target) {
        Some(row) => {
            rows::close_gap(&mut *links, tables::LINK_WIDTH, row, count);
            count - 1
        }
        None => count,
    }
}

// Delete: the object's row and those of its links taken out.
fn take_out(
    held: Held,
    objects: &mut [u32],
    links: &mut [u32],
    losses: &mut [u32; 8704],
    id: u32,
) -> Held
    requires { (CanDelete held.objects objects.old held.links links.old id) × (LossRoom held.links held.losses losses.old) }
    ensures { ((S : Schema) → Applied S (delete id) held.objects objects.old held.links links.old
        result.objects objects.new result.links links.new)
        × (LossesKept (register_of held.objects objects.old held.links links.old) (delete id)
        held.links held.losses losses.old result.links result.losses losses.new) }
{
    let mut left = take_links(held, &mut *links, &mut *losses, id);
    left.objects = take_object(held.objects, &mut *objects, id);
    left
}

// What an event of three fields does to the tables; it answers the used rows after it. The event is one that is not refused.
pub fn effect(
    type_count: u32,
    types: &[u32],
    held: Held,
    objects: &mut [u32],
    links: &mut [u32],
    losses: &mut [u32; 8704],
    kind: u32,
    x: u32,
    y: u32,
    z: u32,
) -> Held
    requires { (Can (types_of type_count types.now) held.objects objects.old held.links links.old (event_of kind x y z))
        × (event_of kind x y z ≡ no_event → ⊥) × (LossRoom held.links held.losses losses.old) }
    ensures { ((fs : List Floor) (rs : List Relationship) →
        Applied (record { types = types_of type_count types.now; floors = fs; relationships = rs }) (event_of kind x y z)
        held.objects objects.old held.links links.old
        result.objects objects.new result.links links.new)
        × (LossesKept (register_of held.objects objects.old held.links links.old) (event_of kind x y z)
        held.links held.losses losses.old result.links result.losses losses.new) }
{
    let mut after = held;
    match kind {
        0 => after.objects = put_object(held.objects, &mut *objects, x, y),
        1 => after = take_out(held, &mut *objects, &mut *links, &mut *losses, x),
        2 => put_cell(held.objects, &mut *objects, x, y, z),
        3 => after.links = put_link(held.links, &mut *links, x, y, z),
        4 => after.links = take_link(held.links, &mut *links, x, y, z),
        5 => put_type(held.objects, &mut *objects, x, y),
        6 => put_higher_type(type_count, types, held.objects, &mut *objects, x, y),
        _ => {}
    }
    after
}

// What the event in a row of the table of events does. It is one that is not refused.
pub fn row_effect(
    type_count: u32,
    types: &[u32],
    held: Held,
    objects: &mut [u32],
    links: &mut [u32],
    losses: &mut [u32; 8704],
    events: &[u32],
    row: u32,
) -> Held
    requires { (Can (types_of type_count types.now) held.objects objects.old held.links links.old (event_row events.now row))
        × (event_row events.now row ≡ no_event → ⊥) × (LossRoom held.links held.losses losses.old) }
    ensures { ((fs : List Floor) (rs : List Relationship) →
        Applied (record { types = types_of type_count types.now; floors = fs; relationships = rs }) (event_row events.now row)
        held.objects objects.old held.links links.old
        result.objects objects.new result.links links.new)
        × (LossesKept (register_of held.objects objects.old held.links links.old) (event_row events.now row)
        held.links held.losses losses.old result.links result.losses losses.new) }
{
    let kind = rows::word(events, tables::EVENT_WIDTH, row, 0);
    let x = rows::word(events, tables::EVENT_WIDTH, row, 1);
    let y = rows::word(events, tables::EVENT_WIDTH, row, 2);
    let z = rows::word(events, tables::EVENT_WIDTH, row, 3);
    effect(
        type_count, types, held, objects, links, losses, kind, x, y, z,
    )
}
