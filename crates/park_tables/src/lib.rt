// What is printed of tables that were read: the batch check, the full check, the event lists of the rules, and the text after the batch.
#![tactic(auto)]

mod event_lists;
mod left;

ghost use Rattle.std.specs.Prelude.{◌≡◌, false, [], ◌≤◌, length};
ghost use Rattle.rows.specs.Rows.{in_front};
ghost use Rattle.tables.specs.Layouts.{sheet_of, register_sheet};
ghost use Rattle.batch.specs.Checked.{lent_outcome, RegisterLeft};
ghost use Rattle.printing.specs.Printed.{room_for};
ghost use Rattle.answers.specs.Checks.{batch_printed};
ghost use Rattle.park_tables.specs.Tables.{full_printed};

pub use event_lists::print_events;
pub use left::print_after;
use tables::{Counts, Sheet};

// The full check's answer.
pub fn print_full(n: Counts, sheet: &Sheet, out: &mut [u8]) -> usize
    requires { room_for 0 ≤ length out.old }
    ensures { let s = register_sheet sheet.now in
        let bytes = full_printed n s in
        (out.new ≡ in_front bytes out.old) × (result ≡ length bytes) }
{
    let answer = full::check(n, sheet);
    let none = [0u32; 1];
    printing::print(answer, 0, &none, out)
}

// The batch check, with a scratch for every object and link and words for every pair that there can be.
pub fn print_check(
    n: Counts,
    types: &[u32],
    floors: &[u32],
    relationships: &[u32],
    rules: &[u32],
    bodies: &[u32],
    objects: &mut [u32],
    links: &mut [u32],
    events: &[u32],
    out: &mut [u8],
) -> usize
    requires { (length objects.old ≤ 10240) × (length links.old ≤ 12288) × (room_for 32768 ≤ length out.old) }
    ensures { let s = sheet_of types.now floors.now relationships.now rules.now bodies.now objects.old links.old events.now in
        let bytes = batch_printed 65536 n s in
        (out.new ≡ in_front bytes out.old) × (result ≡ length bytes)
        × RegisterLeft (lent_outcome n s false 65536) objects.old links.old objects.new links.new }
{
    let mut scratch_objects = [0u32; 10240];
    let mut scratch_links = [0u32; 12288];
    let mut list = [0u32; 65536];
    answers::check_tables(
        n,
        types,
        floors,
        relationships,
        rules,
        bodies,
        objects,
        links,
        events,
        &mut scratch_objects,
        &mut scratch_links,
        &mut list,
        out,
    )
}
