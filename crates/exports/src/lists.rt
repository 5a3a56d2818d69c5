// The event list of a rule over pointers and numbers.
ghost use Rattle.std.specs.Prelude.{◌≡◌, [], length};
ghost use Rattle.tables.specs.Layouts.{sheet_of};
ghost use Rattle.event_list.specs.Answers as EventLists;
ghost use Rattle.told.specs.Coded.{counted_words};
ghost use Rattle.exports.specs.Runs.{used_rows};

use tables::{Counts, Sheet};

// The event list of a rule of a lent book. The answer is 0, how many event types it has, and 0; or 1, a refusal's number and place.
#[unsafe(no_mangle)]
pub extern "C" fn checker_events(
    types_used: u32,
    floors_used: u32,
    relationships_used: u32,
    rules_used: u32,
    types: &[u32],
    floors: &[u32],
    relationships: &[u32],
    rules: &[u32],
    bodies: &[u32],
    rule: u32,
    list: &mut [u16],
    answer: &mut [u32; 3],
)
    ensures { let n = used_rows types_used floors_used relationships_used rules_used 0 0 in
        let s = sheet_of types.now floors.now relationships.now rules.now bodies.now [] [] [] in
        (answer.new ≡ counted_words (EventLists.answer n s «rule» (length list.old))) × (list.new ≡ EventLists.list_after n s «rule» list.old) }
{
    let n = Counts {
        types: types_used,
        floors: floors_used,
        relationships: relationships_used,
        rules: rules_used,
        objects: 0,
        links: 0,
        events: 0,
    };
    let listed = event_list::list(
        n,
        &Sheet {
            types,
            floors,
            relationships,
            rules,
            bodies,
            objects: &[],
            links: &[],
            events: &[],
        },
        rule,
        list,
    );
    *answer = told::counted(listed);
}
