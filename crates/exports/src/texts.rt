// The writer over pointers and numbers.
ghost use Rattle.std.specs.Prelude.{◌≡◌};
ghost use Rattle.tables.specs.Layouts.{sheet_of};
ghost use Rattle.writer.specs.Answers.{answer_for, bytes_left};
ghost use Rattle.told.specs.Coded.{counted_words};
ghost use Rattle.exports.specs.Runs.{all_used};

use tables::{Counts, Sheet};

// The text of lent tables, into lent bytes. The answer is 0, how many bytes were written, and 0; or 1, a refusal's number and place.
#[unsafe(no_mangle)]
pub extern "C" fn checker_write(
    types_used: u32,
    floors_used: u32,
    relationships_used: u32,
    rules_used: u32,
    objects_used: u32,
    links_used: u32,
    events_used: u32,
    types: &[u32],
    floors: &[u32],
    relationships: &[u32],
    rules: &[u32],
    bodies: &[u32],
    objects: &[u32],
    links: &[u32],
    events: &[u32],
    out: &mut [u8],
    answer: &mut [u32; 3],
)
    ensures { let n = all_used types_used floors_used relationships_used rules_used objects_used links_used events_used in
        let s = sheet_of types.now floors.now relationships.now rules.now bodies.now objects.now links.now events.now in
        (answer.new ≡ counted_words (answer_for n s out.old)) × (out.new ≡ bytes_left n s out.old) }
{
    let n = Counts {
        types: types_used,
        floors: floors_used,
        relationships: relationships_used,
        rules: rules_used,
        objects: objects_used,
        links: links_used,
        events: events_used,
    };
    let written = writer::write(
        n,
        &Sheet {
            types,
            floors,
            relationships,
            rules,
            bodies,
            objects,
            links,
            events,
        },
        out,
    );
    *answer = told::counted(written);
}
