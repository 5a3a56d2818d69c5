// The places of a batch's events in its trace: `specs/Traces` has the table. Each place is put at the head of the chain of the row that it names.
ghost use Rattle.std.specs.Prelude.{◌≡◌, ℕ, ◌+◌, ◌*◌, ◌≤◌, ◌<◌, length, get_or};
ghost use Rattle.std.proofs.Math.Option.{some};
ghost use Rattle.meaning.specs.Limits.{max_objects, max_events};
ghost use Rattle.tables.specs.Columns.{event_of, event_row};
ghost use Rattle.register.specs.Tables.{ObjectsAscend, object_place};
ghost use Rattle.trace_places.specs.Traces.{named_at, or_past, row_named};
ghost use Rattle.trace_places.specs.Making.{placed, placed_event, Placed};

use chains::push;

// The kinds of events, by their places in document 01's order.
const DELETE: u32 = 1;

const SET: u32 = 2;

const JOIN: u32 = 3;

const PART: u32 = 4;

const GENERAL: u32 = 6;

// The row of the object of an id; one past the last where there is none.
pub fn end_row(object_count: u32, objects: &[u32], id: u32) -> u32
    requires { ObjectsAscend object_count objects.now }
    ensures { result ≡ or_past (object_place object_count objects.now id) }
{
    match register::object_row(object_count, objects, id) {
        Some(row) => row,
        None => meaning::MAX_OBJECTS,
    }
}

// The id that an event names at its first place, by the words of its row. A row that is no event stands for the delete of id 0.
fn first_id(kind: u32, x: u32, y: u32, z: u32) -> u32
    ensures { named_at (event_of kind x y z) 0 ≡ some result }
{
    if kind == SET {
        return x;
    }
    if kind == JOIN {
        return y;
    }
    if kind == PART {
        return y;
    }
    if z != 0 {
        return 0;
    }
    if kind > GENERAL {
        return 0;
    }
    if kind != DELETE {
        return x;
    }
    if y != 0 {
        return 0;
    }
    x
}

// The row that an event names at its first place.
fn first_row(object_count: u32, objects: &[u32], events: &[u32], i: u32) -> u32
    requires { ObjectsAscend object_count objects.now }
    ensures { result ≡ row_named object_count objects.now (named_at (event_row events.now i) 0) }
{
    let kind = rows::word(events, tables::EVENT_WIDTH, i, 0);
    let x = rows::word(events, tables::EVENT_WIDTH, i, 1);
    let y = rows::word(events, tables::EVENT_WIDTH, i, 2);
    let z = rows::word(events, tables::EVENT_WIDTH, i, 3);
    let id = first_id(kind, x, y, z);
    end_row(object_count, objects, id)
}

// The row that an event names at its second place: that of a link's target.
fn second_row(object_count: u32, objects: &[u32], events: &[u32], i: u32) -> u32
    requires { ObjectsAscend object_count objects.now }
    ensures { result ≡ row_named object_count objects.now (named_at (event_row events.now i) 1) }
{
    let kind = rows::word(events, tables::EVENT_WIDTH, i, 0);
    let z = rows::word(events, tables::EVENT_WIDTH, i, 3);
    if kind == JOIN {
        return end_row(object_count, objects, z);
    }
    if kind == PART {
        return end_row(object_count, objects, z);
    }
    meaning::MAX_OBJECTS
}

// A place at the head of its row's chain; what was the head is next.
fn put(place: u32, row: u32, trace: &mut [u16])
    requires { (length trace.old ≡ 16675) × (place < 512) × (row ≤ max_objects) }
    ensures { trace.new ≡ placed trace.old place row }
{
    push(place, row, 512, 14625 + 2 * row, trace);
}

// Both places of an event.
fn put_event(object_count: u32, objects: &[u32], events: &[u32], i: u32, trace: &mut [u16])
    requires { (ObjectsAscend object_count objects.now) × (object_count ≤ max_objects) × (i < max_events) × (length trace.old ≡ 16675) }
    ensures { trace.new ≡ placed_event object_count objects.now events.now i trace.old }
{
    let second = second_row(object_count, objects, events, i);
    let place = i * 2;
    put(place + 1, second, trace);
    let first = first_row(object_count, objects, events, i);
    put(place, first, trace);
}

// The places of all events in a table of zeros, from the last to the first.
pub fn place(
    object_count: u32,
    objects: &[u32],
    event_count: u32,
    events: &[u32],
    trace: &mut [u16; 16675],
)
    requires { (ObjectsAscend object_count objects.now)
        × (object_count ≤ max_objects)
        × (event_count ≤ max_events)
        × ((k : ℕ) → get_or trace.old k 0 ≡ 0) }
    ensures { Placed object_count objects.now events.now (2 * event_count) trace.old trace.new 0 }
{
    for i in (0..event_count).rev() {
        put_event(object_count, objects, events, i, trace);
    }
}
