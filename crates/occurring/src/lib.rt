// The event types that occur in a batch that was run: a mark for each, at its place among those of `event_marks`.
#![tactic(auto)]

ghost use Rattle.std.specs.Prelude.{◌≡◌, false, ◌&&◌, not, List, ℕ, ◌/◌, ◌%◌, ◌≤◌, ◌<◌, eqb, length, get_or};
ghost use Rattle.meaning.specs.Limits.{max_events};
ghost use Rattle.meaning.specs.Register.{Link};
ghost use Rattle.meaning.specs.Reach.{Change};
ghost use Rattle.meaning.specs.EventList.{occurs};
ghost use Rattle.tables.specs.Columns.{types_of, event_row};
ghost use Rattle.register.specs.Tables.{ObjectsAscend, objects_with};
ghost use Rattle.trace_places.specs.Traces.{Seen};
ghost use Rattle.type_marks.specs.Marks.{places, Added};
ghost use Rattle.occurring.specs.Counting.{counts, read_kind, Counted};

use tables::Counts;
use trace_types::moves::is_delete;
use trace_types::types::{above, end_above, met_above};
use type_marks::put;

// The kinds of events, by their places in document 01's order.
const INSERT: u32 = 0;

const DELETE: u32 = 1;

const SET: u32 = 2;

const JOIN: u32 = 3;

const PART: u32 = 4;

const SPECIAL: u32 = 5;

const GENERAL: u32 = 6;

// The kind as which a row is read.
fn read_kind(kind: u32, z: u32) -> u32
    ensures { (result ≡ read_kind kind z) × (result < 7) }
{
    if is_delete(kind, z) { DELETE } else { kind }
}

// Marks the event types of a kind and a cell whose type is one of the first and none of the second.
fn put_types(kind: u32, cell: u32, these: &[bool; 32], except: &[bool; 32], marks: &mut [bool])
    requires { (length marks.old ≡ places) × (kind < 7) }
    ensures { Added marks.old marks.new (λ place. eqb kind (place / 256) && (eqb cell (place % 8)
        && (get_or these.now (place / 8 % 32) false && not (get_or except.now (place / 8 % 32) false)))) }
{
    for t in 0..meaning::MAX_TYPES {
        let at = t as usize;
        put(but_not(these[at], except[at]), kind, t, cell, marks);
    }
}

// Whether the one holds and not the other.
fn but_not(a: bool, b: bool) -> bool
    ensures { result ≡ (a && not b) }
{
    if a { !b } else { false }
}

// Marks what an event counts for.
fn put_event(
    type_count: u32,
    types: &[u32],
    object_count: u32,
    objects: &[u32],
    events: &[u32],
    i: u32,
    met: u32,
    marks: &mut [bool],
)
    requires { (ObjectsAscend object_count objects.now) × (length marks.old ≡ places) }
    ensures { (ls : List Link) → Counted marks.old marks.new
        (counts (types_of type_count types.now) (objects_with object_count objects.now ls) (event_row events.now i) met) }
{
    let kind = read_kind(
        rows::word(events, tables::EVENT_WIDTH, i, 0),
        rows::word(events, tables::EVENT_WIDTH, i, 3),
    );
    let x = rows::word(events, tables::EVENT_WIDTH, i, 1);
    let y = rows::word(events, tables::EVENT_WIDTH, i, 2);
    if kind == JOIN {
        put(true, JOIN, x, 0, marks);
        return;
    }
    if kind == PART {
        put(true, PART, x, 0, marks);
        return;
    }
    let none = [false; 32];
    if kind == SET {
        let there = end_above(type_count, types, object_count, objects, x);
        put_types(SET, y, &there, &none, marks);
        return;
    }
    let had = met_above(type_count, types, met);
    if kind == DELETE {
        put_types(DELETE, 0, &had, &none, marks);
        return;
    }
    let into = above(type_count, types, y);
    if kind == INSERT {
        put_types(INSERT, 0, &into, &none, marks);
        return;
    }
    if kind == SPECIAL {
        put_types(SPECIAL, 0, &into, &had, marks);
        return;
    }
    put_types(GENERAL, 0, &had, &into, marks);
}

// Marks the event types that occur in a batch. The counts are those at the end.
pub fn mark_events(
    n: Counts,
    types: &[u32],
    objects: &[u32],
    events: &[u32],
    met: &[u32; 256],
    marks: &mut [bool],
)
    requires { (length marks.old ≡ places) × (ObjectsAscend n.objects objects.now) × (n.events ≤ max_events) }
    ensures { (c : Change) (links : List ℕ)
        → Seen c n types.now objects.now links events.now (λ i. get_or met.now i 0)
        → Counted marks.old marks.new (occurs c) }
{
    let count = n.events;
    for i in 0..count {
        let at = i as usize;
        let m = met[at];
        put_event(n.types, types, n.objects, objects, events, i, m, marks);
    }
}
