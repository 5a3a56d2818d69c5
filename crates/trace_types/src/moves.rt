// The directions in which all objects of a type move: a gain where an event brings an object into it that is under it at the end, a loss where one
// takes an object out.
ghost use Rattle.std.specs.Prelude.{◌≡◌, false, ◌&&◌, ◌||◌, List, ◌<◌, ◌≤◌, length, get_or};
ghost use Rattle.meaning.specs.Limits.{max_types, max_events};
ghost use Rattle.meaning.specs.Register.{Link};
ghost use Rattle.meaning.specs.Reach.{Direction};
ghost use Rattle.tables.specs.Columns.{types_of, event_row};
ghost use Rattle.register.specs.Tables.{ObjectsAscend, objects_with};
ghost use Rattle.directions.specs.Sets.{has};
ghost use Rattle.trace_places.specs.Making.{delete_words, comes_by, goes_by, either_way, event_moves, some_below, SetWith, SetsWith};

use crate::types;
use directions::{DOWN, UP};
use trace_places::keep::bit;

// The kinds of events, by their places in document 01's order.
const INSERT: u32 = 0;

const DELETE: u32 = 1;

const SET: u32 = 2;

const PART: u32 = 4;

const SPECIAL: u32 = 5;

const GENERAL: u32 = 6;

// Whether an event brings its object into a type, by whether the type that it names is under that, and the one that it met was.
fn comes(kind: u32, z: u32, into: bool, had: bool) -> bool
    ensures { result ≡ comes_by kind z into had }
{
    if z != 0 {
        return false;
    }
    if kind == INSERT {
        return into;
    }
    if kind != SPECIAL {
        return false;
    }
    if had {
        return false;
    }
    into
}

// Whether a row is read as a delete.
pub fn is_delete(kind: u32, z: u32) -> bool
    ensures { result ≡ delete_words kind z }
{
    if kind == DELETE {
        return true;
    }
    if kind > GENERAL {
        return true;
    }
    if kind < SET {
        return z != 0;
    }
    if kind > PART {
        return z != 0;
    }
    false
}

// Whether an event takes its object out of a type, by the same.
fn goes(kind: u32, z: u32, into: bool, had: bool) -> bool
    ensures { result ≡ goes_by kind z into had }
{
    if !had {
        return false;
    }
    if is_delete(kind, z) {
        return true;
    }
    if kind != GENERAL {
        return false;
    }
    !into
}

// A set of directions with a gain and a loss besides.
fn with(set: u32, gain: bool, loss: bool) -> u32
    ensures { (result < 4) × ((d : Direction) → has result d ≡ (has set d || either_way gain loss d)) }
{
    let up = bit(directions::contains(set, UP) | gain);
    let down = bit(directions::contains(set, DOWN) | loss);
    up + down * 2
}

// The same in the set of a type.
fn put(t: u32, gain: bool, loss: bool, trace: &mut [u16])
    requires { (length trace.old ≡ 16675) × (t < max_types) }
    ensures { SetWith trace.old trace.new t (either_way gain loss) }
{
    let at = (1536 + t) as usize;
    let set = with(rows::wide(trace[at]), gain, loss);
    trace[at] = set as u16;
}

// An event in the sets of all types, by its kind and last field, and by the types that are above the one that it names, the one that it met, and the
// object's at the end.
fn put_all(
    kind: u32,
    z: u32,
    into: &[bool; 32],
    had: &[bool; 32],
    there: &[bool; 32],
    trace: &mut [u16; 16675],
)
    ensures { SetsWith trace.old trace.new (λ t. either_way
        (comes_by kind z (get_or into.now t false) (get_or had.now t false) && get_or there.now t false)
        (goes_by kind z (get_or into.now t false) (get_or had.now t false))) max_types }
{
    for t in 0..meaning::MAX_TYPES {
        let at = t as usize;
        let gain = comes(kind, z, into[at], had[at]) & there[at];
        let loss = goes(kind, z, into[at], had[at]);
        put(t, gain, loss, trace);
    }
}

// An event in the sets of all types. A set, a join or a part is passed over.
fn put_event(
    type_count: u32,
    types: &[u32],
    object_count: u32,
    objects: &[u32],
    events: &[u32],
    i: u32,
    met: u32,
    trace: &mut [u16; 16675],
)
    requires { ObjectsAscend object_count objects.now }
    ensures { (ls : List Link) → SetsWith trace.old trace.new
        (event_moves (types_of type_count types.now) (objects_with object_count objects.now ls) (event_row events.now i) met) max_types }
{
    let kind = rows::word(events, tables::EVENT_WIDTH, i, 0);
    let x = rows::word(events, tables::EVENT_WIDTH, i, 1);
    let y = rows::word(events, tables::EVENT_WIDTH, i, 2);
    let z = rows::word(events, tables::EVENT_WIDTH, i, 3);
    if kind >= SET {
        if kind <= PART {
            return;
        }
    }
    let into = types::above(type_count, types, y);
    let had = types::met_above(type_count, types, met);
    let there = types::end_above(type_count, types, object_count, objects, x);
    put_all(kind, z, &into, &had, &there, trace);
}

// All events in the sets of all types.
pub fn fill(
    type_count: u32,
    types: &[u32],
    object_count: u32,
    objects: &[u32],
    event_count: u32,
    events: &[u32],
    met: &[u32; 256],
    trace: &mut [u16; 16675],
)
    requires { (ObjectsAscend object_count objects.now) × (event_count ≤ max_events) }
    ensures { (ls : List Link) → SetsWith trace.old trace.new
        (λ t d. some_below (λ i. event_moves (types_of type_count types.now) (objects_with object_count objects.now ls)
        (event_row events.now i) (get_or met.now i 0) t d) event_count) max_types }
{
    for i in 0..event_count {
        let at = i as usize;
        let m = met[at];
        put_event(
            type_count,
            types,
            object_count,
            objects,
            events,
            i,
            m,
            trace,
        );
    }
}
