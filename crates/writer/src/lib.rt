// The writer: lent tables as their one text.
#![tactic(auto)]

ghost use Rattle.std.specs.Prelude.{◌≡◌, List, ℕ, ◌+◌, ◌<◌, ◌≤◌, length};
ghost use Rattle.std.proofs.Math.Option.{none};
ghost use Rattle.tables.specs.Layouts.{section_count, sheet_in};
ghost use Rattle.tables.specs.Refusals.{verdict_of, sheet_refusal};
ghost use Rattle.checks.specs.Given.{Given, EventsLent, EventsKnown};
ghost use Rattle.line_writer.specs.Put.{Put};
ghost use Rattle.line_writer.specs.Lines.{Fit, line_of, rows_in, lines_of, sheet_text};
ghost use Rattle.writer.specs.Answers.{Answered, text_refusal, answer_for, bytes_left};

use line_writer::lines;
use tables::{Counts, FLOOR_WIDTH, LINK_WIDTH, Refusal, Sheet};
use text::{
    FLOOR_SECTION, LINK_SECTION, OBJECT_SECTION, RELATIONSHIP_SECTION, RULE_SECTION, SECTION_COUNT,
    TYPE_SECTION,
};

// The line of a row, by its section.
fn line(out: &mut [u8], at: usize, sheet: &Sheet, section: u32, row: u32) -> usize
    requires { Fit (sheet_in sheet.now) section row }
    ensures { Put out.old at (line_of (sheet_in sheet.now) section row) out.new result }
{
    if section == TYPE_SECTION {
        return lines::type_line(out, at, sheet.types, row);
    }
    if section == FLOOR_SECTION {
        return lines::plain_line(out, at, FLOOR_SECTION, sheet.floors, FLOOR_WIDTH, row);
    }
    if section == RELATIONSHIP_SECTION {
        return lines::relationship_line(out, at, sheet.relationships, row);
    }
    if section == RULE_SECTION {
        return lines::rule_line(out, at, sheet.rules, sheet.bodies, row);
    }
    if section == OBJECT_SECTION {
        return lines::object_line(out, at, sheet.types, sheet.objects, row);
    }
    if section == LINK_SECTION {
        return lines::plain_line(out, at, LINK_SECTION, sheet.links, LINK_WIDTH, row);
    }
    lines::event_line(out, at, sheet.events, row)
}

// The lines of the first rows of a section.
fn section_lines(out: &mut [u8], at: usize, sheet: &Sheet, section: u32, count: u32) -> usize
    requires { ((i : ℕ) → i < count → Fit (sheet_in sheet.now) section i) × (at ≤ length out.old + 1) }
    ensures { Put out.old at (lines_of (line_of (sheet_in sheet.now) section) count) out.new result }
{
    let mut next = at;
    for row in 0..count {
        next = line(&mut *out, next, sheet, section, row);
    }
    next
}

// How many rows of a section are used.
fn rows_in(n: Counts, section: u32) -> u32
    requires { section < section_count }
    ensures { result ≡ rows_in n section }
{
    let counts = [
        n.types,
        n.floors,
        n.relationships,
        n.rules,
        n.objects,
        n.links,
        n.events,
    ];
    counts[section as usize]
}

// The lines of all sections in order, from the start of the bytes on.
fn text(out: &mut [u8], n: Counts, sheet: &Sheet) -> usize
    requires { let s = sheet_in sheet.now in Given n s × EventsLent n s × EventsKnown n s }
    ensures { Put out.old 0 (sheet_text n (sheet_in sheet.now)) out.new result }
{
    let mut next = 0;
    for section in 0..SECTION_COUNT {
        let count = rows_in(n, section);
        next = section_lines(&mut *out, next, sheet, section, count);
    }
    next
}

// A text from the buffer to the lent bytes, where it keeps its limit and fits there, else refusal 2 or 14. A text that is over its limit
// ends past the buffer.
fn deliver(buffer: &[u8], end: usize, out: &mut [u8]) -> Result<u32, Refusal>
    requires { length buffer.now ≡ 65536 }
    ensures { (d s : List ℕ) → length d ≡ 65536 → Put d 0 s buffer.now end → Answered result out.new (text_refusal s (length out.old)) s out.old }
{
    if 65536 < end {
        return Err(Refusal {
            number: 2,
            place: 0,
        });
    }
    if out.len() < end {
        return Err(Refusal {
            number: 14,
            place: 0,
        });
    }
    lexical::write_bytes(out, 0, &buffer[..end]);
    Ok(end as u32)
}

// Refusals 2 and 6 of all tables, 3, 4 and 5, and 7 of the events by themselves.
fn refused(n: Counts, sheet: &Sheet) -> Result<(), Refusal>
    ensures { result ≡ verdict_of (sheet_refusal n (sheet_in sheet.now)) }
{
    checks::check_all(n, sheet, false)?;
    match known_events::first_unknown(n, sheet.events) {
        Some(place) => Err(Refusal { number: 7, place }),
        None => Ok(()),
    }
}

// The text of tables that nothing refuses, into lent bytes. It stands apart, so that a refusal doesn't pay for the buffer.
fn write_sound(n: Counts, sheet: &Sheet, out: &mut [u8]) -> Result<u32, Refusal>
    requires { sheet_refusal n (sheet_in sheet.now) ≡ none }
    ensures { let s = sheet_in sheet.now in
        (result ≡ answer_for n s out.old) × (out.new ≡ bytes_left n s out.old) }
{
    let mut buffer = [0u8; 65536];
    let end = text(&mut buffer, n, sheet);
    deliver(&buffer, end, out)
}

// The text of lent tables, into lent bytes: the first refusal, else how many bytes were written. On a refusal nothing is written.
pub fn write(n: Counts, sheet: &Sheet, out: &mut [u8]) -> Result<u32, Refusal>
    ensures { let s = sheet_in sheet.now in
        (result ≡ answer_for n s out.old) × (out.new ≡ bytes_left n s out.old) }
{
    refused(n, sheet)?;
    write_sound(n, sheet, out)
}
