// The events of a batch one after the other, on a copy of the register.
ghost use Rattle.std.specs.Prelude.{◌≡◌, List, [], ℕ, ◌≤◌};
ghost use Rattle.meaning.specs.Limits.{max_events};
ghost use Rattle.meaning.specs.Register.{Link};
ghost use Rattle.tables.specs.Columns.{floors_of, schema_of, register_of, no_event, event_row, events_of};
ghost use Rattle.register.specs.Tables.{objects_with, ObjectsAscend};
ghost use Rattle.tables.specs.Met.{type_in, met_type};
ghost use Rattle.std.specs.Prelude.{Err};
ghost use Rattle.events.specs.Runs.{lent_by, Fit, CanRun, ran_over, RunDone};

use crate::{Ran, step};
use event_effects::Held;
use register::columns;
use tables::Refusal;

// What stands for the type of an object that is not there.
const NO_TYPE: u32 = 32;

// The type of the object of an id, if it is there.
fn type_in(count: u32, objects: &[u32], id: u32) -> u32
    requires { ObjectsAscend count objects.now }
    ensures { (ls : List Link) → result ≡ type_in (objects_with count objects.now ls) id }
{
    match register::object_row(count, objects, id) {
        Some(row) => columns::type_of(objects, row),
        None => NO_TYPE,
    }
}

// The type that the object of an event has when the event comes. A join and a part name no object here.
fn met_type(count: u32, objects: &[u32], events: &[u32], row: u32) -> u32
    requires { ObjectsAscend count objects.now }
    ensures { (event_row events.now row ≡ no_event → ⊥) → (ls : List Link) →
        result ≡ met_type (objects_with count objects.now ls) (event_row events.now row) }
{
    let kind = rows::word(events, tables::EVENT_WIDTH, row, 0);
    if kind == 3 {
        return NO_TYPE;
    }
    if kind == 4 {
        return NO_TYPE;
    }
    type_in(
        count,
        objects,
        rows::word(events, tables::EVENT_WIDTH, row, 1),
    )
}

// What a run answers that meets a refusal: the used rows as they were lent, and nothing of its events.
pub fn refused(refusal: Refusal, objects: u32, links: u32) -> Ran
    ensures { result ≡ ran_over (Err refusal) objects links [] }
{
    let held = Held {
        objects,
        links,
        losses: 0,
    };
    let met = [NO_TYPE; 256];
    let losses = [0u32; 8704];
    Ran {
        verdict: Err(refusal),
        held,
        met,
        losses,
    }
}

// The events on tables that fit, up to the first that is refused.
fn run_on(
    type_count: u32,
    types: &[u32],
    floor_count: u32,
    floors: &[u32],
    relationship_count: u32,
    relationships: &[u32],
    objects_lent: usize,
    links_lent: usize,
    from: Held,
    objects: &mut [u32],
    links: &mut [u32],
    event_count: u32,
    events: &[u32],
) -> Ran
    requires { (Fit (schema_of type_count types.now (floors_of floor_count floors.now) relationship_count relationships.now)
        (record { objects = objects_lent; links = links_lent; words = 0 })
        from.objects objects.now from.links links.old) × (event_count ≤ max_events) × (from.losses ≡ 0) }
    ensures { (w : ℕ) →
        RunDone (schema_of type_count types.now (floors_of floor_count floors.now) relationship_count relationships.now)
        (record { objects = objects_lent; links = links_lent; words = w })
        (register_of from.objects objects.old from.links links.old)
        (events_of event_count events.now) result objects.new links.new }
{
    let mut used = from;
    let mut met = [NO_TYPE; 256];
    let mut losses = [0u32; 8704];
    for row in 0..event_count {
        let seen = met_type(used.objects, &*objects, events, row);
        let stepped = step(
            type_count,
            types,
            floor_count,
            floors,
            relationship_count,
            relationships,
            objects_lent,
            links_lent,
            used,
            &mut *objects,
            &mut *links,
            &mut losses,
            events,
            row,
        );
        if let Some(number) = stepped.refused {
            let refusal = Refusal { number, place: row };
            return refused(refusal, from.objects, from.links);
        }
        met[row as usize] = seen;
        used = stepped.held;
    }
    Ran {
        verdict: Ok(()),
        held: used,
        met,
        losses,
    }
}

// A batch on a copy of the register: its refusal, or the register after it in the scratch. Only the used rows are copied.
pub fn run(
    type_count: u32,
    types: &[u32],
    floor_count: u32,
    floors: &[u32],
    relationship_count: u32,
    relationships: &[u32],
    object_count: u32,
    objects: &[u32],
    link_count: u32,
    links: &[u32],
    scratch_objects: &mut [u32],
    scratch_links: &mut [u32],
    event_count: u32,
    events: &[u32],
) -> Ran
    requires { CanRun (schema_of type_count types.now (floors_of floor_count floors.now) relationship_count relationships.now)
        object_count objects.now link_count links.now scratch_objects.old scratch_links.old event_count }
    ensures { (w : ℕ) →
        RunDone (schema_of type_count types.now (floors_of floor_count floors.now) relationship_count relationships.now)
        (lent_by objects.now links.now w)
        (register_of object_count objects.now link_count links.now)
        (events_of event_count events.now) result scratch_objects.new scratch_links.new }
{
    rows::copy_words(&mut *scratch_objects, objects, (object_count as usize) * 10);
    rows::copy_words(&mut *scratch_links, links, (link_count as usize) * 3);
    let from = Held {
        objects: object_count,
        links: link_count,
        losses: 0,
    };
    run_on(
        type_count,
        types,
        floor_count,
        floors,
        relationship_count,
        relationships,
        rows::rows_lent(objects, tables::OBJECT_WIDTH),
        rows::rows_lent(links, tables::LINK_WIDTH),
        from,
        scratch_objects,
        scratch_links,
        event_count,
        events,
    )
}
