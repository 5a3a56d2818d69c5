// The event lists of a book's rules, a line for each rule.
ghost use Rattle.std.specs.Prelude.{◌≡◌, [], ◌*◌, ◌≤◌, ◌<◌, length};
ghost use Rattle.std.proofs.Math.Option.{none};
ghost use Rattle.rows.specs.Rows.{in_front};
ghost use Rattle.tables.specs.Layouts.{book_sheet};
ghost use Rattle.tables.specs.Columns.{book_of};
ghost use Rattle.line_writer.specs.Put.{Put};
ghost use Rattle.event_list.specs.Answers.{lent_book_refusal, list_of};
ghost use Rattle.event_lines.specs.Events.{events_line, room_for_events};
ghost use Rattle.park_tables.specs.Tables.{rule_lines, events_printed};

use tables::{Counts, Sheet};

// The line of a rule of a book that is not refused. Words for every event type that there can be are lent, so its list is not refused either.
fn rule_line(out: &mut [u8], at: usize, n: Counts, sheet: &Sheet, rule: u32) -> usize
    requires { (lent_book_refusal n (book_sheet sheet.now) ≡ none) × («rule» < n.rules) }
    ensures { let k = book_of n (book_sheet sheet.now) in
        let bytes = events_line «rule» (list_of k «rule») in
        (Put out.old at bytes out.new result) × (length bytes ≤ room_for_events 1792) }
{
    let mut words = [0u16; 5376];
    match event_list::list(n, sheet, rule, &mut words) {
        Err(_) => at,
        Ok(count) => event_lines::line(out, at, rule, count, &words),
    }
}

// The lines of all rules of a book that is not refused, from the start of the bytes on.
fn rule_lines(out: &mut [u8], n: Counts, sheet: &Sheet) -> usize
    requires { lent_book_refusal n (book_sheet sheet.now) ≡ none }
    ensures { let bytes = rule_lines (book_of n (book_sheet sheet.now)) n.rules in
        (Put out.old 0 bytes out.new result) × (length bytes ≤ room_for_events 1792 * n.rules) }
{
    let mut next: usize = 0;
    for rule in 0..n.rules {
        next = rule_line(&mut *out, next, n, sheet, rule);
    }
    next
}

// The book's refusal, or the line of each of its rules.
pub fn print_events(n: Counts, sheet: &Sheet, out: &mut [u8]) -> usize
    requires { room_for_events 1792 * 32 ≤ length out.old }
    ensures { let bytes = events_printed n (book_sheet sheet.now) in
        (out.new ≡ in_front bytes out.old) × (result ≡ length bytes) }
{
    match event_list::book_verdict(n, sheet) {
        Err(refusal) => printing::refuse(refusal.number, refusal.place, out),
        Ok(()) => rule_lines(out, n, sheet),
    }
}
