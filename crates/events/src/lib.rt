// Document 01's events on the register's tables: a refusal or an effect as one step, and the run of a batch.
#![tactic(auto)]

mod runs;

ghost use Rattle.std.specs.Prelude.{ℕ};
ghost use Rattle.tables.specs.Columns.{floors_of, schema_of, event_row};
ghost use Rattle.event_effects.specs.Effects.{LossRoom};
ghost use Rattle.events.specs.Steps.{Ready, StepDone};

use event_effects::{Held, row_effect};
use event_refusals::refusal;
pub use runs::{refused, run};
use tables::Refusal;

// The refusal that an event met, if it met one, and the used rows after it.
#[derive(Clone, Copy)]
pub struct Stepped {
    pub refused: Option<u32>,
    pub held: Held,
}

// What a run answers: a refusal with its place, and the used rows as they were lent; or the used rows after the batch, for each event the type that its object
// had when the event came, and the losses of the links that went with deleted objects, two words each. 32 stands for no type, and past the events and after a
// refusal; past the losses are zeros.
#[derive(Clone, Copy)]
pub struct Ran {
    pub verdict: Result<(), Refusal>,
    pub held: Held,
    pub met: [u32; 256],
    pub losses: [u32; 8704],
}

// One event on the register's tables: its refusal, or its effect.
pub fn step(
    type_count: u32,
    types: &[u32],
    floor_count: u32,
    floors: &[u32],
    relationship_count: u32,
    relationships: &[u32],
    objects_lent: usize,
    links_lent: usize,
    held: Held,
    objects: &mut [u32],
    links: &mut [u32],
    losses: &mut [u32; 8704],
    events: &[u32],
    row: u32,
) -> Stepped
    requires { (Ready (schema_of type_count types.now (floors_of floor_count floors.now) relationship_count relationships.now)
        (record { objects = objects_lent; links = links_lent; words = 0 })
        held.objects objects.now held.links links.old) × (LossRoom held.links held.losses losses.old) }
    ensures { (w : ℕ) →
        StepDone (schema_of type_count types.now (floors_of floor_count floors.now) relationship_count relationships.now)
        (record { objects = objects_lent; links = links_lent; words = w }) (event_row events.now row)
        held.objects objects.old held.links links.old held.losses losses.old
        result.refused result.held.objects objects.new result.held.links links.new result.held.losses losses.new }
{
    let object_count = held.objects;
    let link_count = held.links;
    match refusal(
        type_count,
        types,
        floor_count,
        floors,
        relationship_count,
        relationships,
        objects_lent,
        links_lent,
        object_count,
        &*objects,
        link_count,
        &*links,
        events,
        row,
    ) {
        Some(number) => Stepped {
            refused: Some(number),
            held: held,
        },
        None => {
            let after = row_effect(
                type_count,
                types,
                held,
                &mut *objects,
                &mut *links,
                &mut *losses,
                events,
                row,
            );
            Stepped {
                refused: None,
                held: after,
            }
        }
    }
}
