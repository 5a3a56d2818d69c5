// A batch of events over pointers and numbers.
ghost use Rattle.tables.specs.Layouts.{sheet_of};
ghost use Rattle.exports.specs.Runs.{all_used, RunTold};

use tables::{Counts, Sheet};

// The events of a lent batch on a copy of the register's used rows. The answer is 0 and the used rows of the register after the batch, which then stands in the
// two tables lent for the end, with zeros past its used rows; or 1, a refusal's number and its place.
#[unsafe(no_mangle)]
pub extern "C" fn checker_run(
    types_used: u32,
    floors_used: u32,
    relationships_used: u32,
    rules_used: u32,
    objects_used: u32,
    links_used: u32,
    types: &[u32],
    floors: &[u32],
    relationships: &[u32],
    rules: &[u32],
    bodies: &[u32],
    objects: &[u32],
    links: &[u32],
    end_objects: &mut [u32],
    end_links: &mut [u32],
    events_used: u32,
    events: &[u32],
    answer: &mut [u32; 3],
)
    ensures { RunTold (all_used types_used floors_used relationships_used rules_used objects_used links_used events_used)
        (sheet_of types.now floors.now relationships.now rules.now bodies.now objects.now links.now events.now)
        end_objects.old end_links.old
        answer.new end_objects.new end_links.new }
{
    let n = Counts {
        types: types_used,
        floors: floors_used,
        relationships: relationships_used,
        rules: rules_used,
        objects: objects_used,
        links: links_used,
        events: events_used,
    };
    let ran = lent_run::run(
        n,
        &Sheet {
            types,
            floors,
            relationships,
            rules,
            bodies,
            objects,
            links,
            events,
        },
        &mut *end_objects,
        &mut *end_links,
    );
    let held = ran.held;
    let verdict = ran.verdict;
    rows::clear_past(&mut *end_objects, tables::OBJECT_WIDTH, held.objects);
    rows::clear_past(&mut *end_links, tables::LINK_WIDTH, held.links);
    *answer = told::ran(verdict, held.objects, held.links);
}
