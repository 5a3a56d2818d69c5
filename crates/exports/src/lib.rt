// What Rust and C programs link: the checker's entries over pointers and numbers.
#![tactic(auto)]

mod batches;
mod lists;
mod runs;
mod texts;
mod version;

ghost use Rattle.std.specs.Prelude.{◌≡◌, false, []};
ghost use Rattle.tables.specs.Layouts.{sheet_of};
ghost use Rattle.tables.specs.Refusals.{lent_refusal};
ghost use Rattle.full.specs.Answers.{lent_answer};
ghost use Rattle.reader.specs.Reads.{lent_reading, sheet_after};
ghost use Rattle.told.specs.Coded.{coded, answer_words, read_words};
ghost use Rattle.exports.specs.Runs.{used_rows};

use tables::{Counts, Sheet};

// Refusals 2, 6, 3, 4 and 5 of a lent book and register: a refusal's number times 2^32 plus its place, or 0.
#[unsafe(no_mangle)]
pub extern "C" fn checker_check(
    types_used: u32,
    floors_used: u32,
    relationships_used: u32,
    rules_used: u32,
    objects_used: u32,
    links_used: u32,
    types: &[u32],
    floors: &[u32],
    relationships: &[u32],
    rules: &[u32],
    bodies: &[u32],
    objects: &[u32],
    links: &[u32],
) -> u64
    ensures { result ≡ coded (lent_refusal (used_rows types_used floors_used relationships_used rules_used objects_used links_used) (sheet_of types.now floors.now relationships.now rules.now bodies.now objects.now links.now []) false) }
{
    let n = Counts {
        types: types_used,
        floors: floors_used,
        relationships: relationships_used,
        rules: rules_used,
        objects: objects_used,
        links: links_used,
        events: 0,
    };
    let verdict = checks::check(
        n,
        &Sheet {
            types,
            floors,
            relationships,
            rules,
            bodies,
            objects,
            links,
            events: &[],
        },
        false,
    );
    told::verdict(verdict)
}

// The full check of a lent book and register. The answer is 0 where it is accepted; 1, rule and id; or 2, a refusal's number and place.
#[unsafe(no_mangle)]
pub extern "C" fn checker_full_check(
    types_used: u32,
    floors_used: u32,
    relationships_used: u32,
    rules_used: u32,
    objects_used: u32,
    links_used: u32,
    types: &[u32],
    floors: &[u32],
    relationships: &[u32],
    rules: &[u32],
    bodies: &[u32],
    objects: &[u32],
    links: &[u32],
    answer: &mut [u32; 3],
)
    ensures { answer.new ≡ answer_words (lent_answer (used_rows types_used floors_used relationships_used rules_used objects_used links_used) (sheet_of types.now floors.now relationships.now rules.now bodies.now objects.now links.now [])) }
{
    let n = Counts {
        types: types_used,
        floors: floors_used,
        relationships: relationships_used,
        rules: rules_used,
        objects: objects_used,
        links: links_used,
        events: 0,
    };
    let said = full::check(
        n,
        &Sheet {
            types,
            floors,
            relationships,
            rules,
            bodies,
            objects,
            links,
            events: &[],
        },
    );
    *answer = told::answer(said);
}

// Reads a text into lent tables. The answer is 0 and the rows of the seven sections, bodies left out; or 1, a refusal's number and its line.
#[unsafe(no_mangle)]
pub extern "C" fn checker_read(
    text: &[u8],
    types: &mut [u32],
    floors: &mut [u32],
    relationships: &mut [u32],
    rules: &mut [u32],
    bodies: &mut [u32],
    objects: &mut [u32],
    links: &mut [u32],
    events: &mut [u32],
    answer: &mut [u32; 8],
)
    ensures { let before = sheet_of types.old floors.old relationships.old rules.old bodies.old objects.old links.old events.old in
        let after = sheet_of types.new floors.new relationships.new rules.new bodies.new objects.new links.new events.new in
        let reading = lent_reading text.now before in
        (answer.new ≡ read_words reading) × (after ≡ sheet_after reading before) }
{
    let done = reader::read(
        text,
        types,
        floors,
        relationships,
        rules,
        bodies,
        objects,
        links,
        events,
    );
    *answer = told::reading(done);
}
