// Text to tables. The whole text is looked through before a row is written.
#![tactic(auto)]

ghost use Rattle.std.specs.Prelude.{◌≡◌};
ghost use Rattle.tables.specs.Layouts.{sheet_of, layouts, lines_lent, sheet_in};
ghost use Rattle.tables.specs.Refusals.{not_whole};
ghost use Rattle.reader.specs.Reads.{lent_reading, read_answer, sheet_after};

use meaning::MAX_FORMS;
use reading::look;
use tables::{
    BODY_WIDTH, Counts, EVENT_WIDTH, FLOOR_WIDTH, LINK_WIDTH, OBJECT_WIDTH, RELATIONSHIP_WIDTH,
    RULE_WIDTH, Refusal, Sheet, TYPE_WIDTH,
};
use text::MAX_TEXT;

mod fill;

// How many lines of each section have their rows lent. A rule has its rows of the bodies too.
fn room_of(sheet: &Sheet) -> [usize; 7]
    ensures { result ≡ lines_lent (sheet_in sheet.now) }
{
    let bodies_lent = rows::rows_lent(sheet.bodies, BODY_WIDTH * MAX_FORMS);
    [
        rows::rows_lent(sheet.types, TYPE_WIDTH),
        rows::rows_lent(sheet.floors, FLOOR_WIDTH),
        rows::rows_lent(sheet.relationships, RELATIONSHIP_WIDTH),
        rows::rows_lent(sheet.rules, RULE_WIDTH).min(bodies_lent),
        rows::rows_lent(sheet.objects, OBJECT_WIDTH),
        rows::rows_lent(sheet.links, LINK_WIDTH),
        rows::rows_lent(sheet.events, EVENT_WIDTH),
    ]
}

// 6: whether a table is not whole rows.
fn any_broken(sheet: &Sheet) -> bool
    ensures { result ≡ not_whole layouts (sheet_in sheet.now) }
{
    lent_tables::any_broken(sheet) || lent_tables::not_whole(sheet.events, EVENT_WIDTH)
}

// What a read into the tables answers: 2 of the text's length, 1 and 2 of its lines, then 6 of the tables.
fn examine(text: &[u8], sheet: &Sheet) -> Result<Counts, Refusal>
    ensures { result ≡ read_answer (lent_reading text.now (sheet_in sheet.now)) }
{
    if MAX_TEXT < text.len() {
        return Err(Refusal {
            number: 2,
            place: 0,
        });
    }
    let room = room_of(sheet);
    let seen = look::look(text, &room)?;
    if any_broken(sheet) {
        return Err(Refusal {
            number: 6,
            place: 0,
        });
    }
    let n = seen.counts;
    Ok(Counts {
        types: n[0],
        floors: n[1],
        relationships: n[2],
        rules: n[3],
        objects: n[4],
        links: n[5],
        events: n[6],
    })
}

// Reads a text into the tables. A refusal leaves them as they are; else all unused rows are 0.
pub fn read(
    text: &[u8],
    types: &mut [u32],
    floors: &mut [u32],
    relationships: &mut [u32],
    rules: &mut [u32],
    bodies: &mut [u32],
    objects: &mut [u32],
    links: &mut [u32],
    events: &mut [u32],
) -> Result<Counts, Refusal>
    ensures { let before = sheet_of types.old floors.old relationships.old rules.old bodies.old objects.old links.old events.old in
        let after = sheet_of types.new floors.new relationships.new rules.new bodies.new objects.new links.new events.new in
        let reading = lent_reading text.now before in
        (result ≡ read_answer reading) × (after ≡ sheet_after reading before) }
{
    let n = examine(
        text,
        &Sheet {
            types: &*types,
            floors: &*floors,
            relationships: &*relationships,
            rules: &*rules,
            bodies: &*bodies,
            objects: &*objects,
            links: &*links,
            events: &*events,
        },
    )?;
    fill::fill(
        text,
        &mut *types,
        &mut *floors,
        &mut *relationships,
        &mut *rules,
        &mut *bodies,
        &mut *objects,
        &mut *links,
        &mut *events,
    );
    Ok(n)
}
