// The text of book and register after a batch.
ghost use Rattle.std.specs.Prelude.{◌≡◌, false, [], ◌≤◌, length};
ghost use Rattle.rows.specs.Rows.{in_front};
ghost use Rattle.tables.specs.Layouts.{sheet_of, register_sheet};
ghost use Rattle.batch.specs.Checked.{lent_outcome, RegisterLeft};
ghost use Rattle.printing.specs.Printed.{room_for};
ghost use Rattle.park_tables.specs.Tables.{text_printed, after_printed};

use tables::{Answer, Counts, Sheet};

// The text of a book and a register, or the writer's refusal.
fn print_text(n: Counts, sheet: &Sheet, out: &mut [u8]) -> usize
    requires { 65536 ≤ length out.old }
    ensures { let s = register_sheet sheet.now in
        let bytes = text_printed n s in
        (out.new ≡ in_front bytes out.old) × (result ≡ length bytes) }
{
    let none = &sheet.types[..0];
    match writer::write(
        n,
        &Sheet {
            types: sheet.types,
            floors: sheet.floors,
            relationships: sheet.relationships,
            rules: sheet.rules,
            bodies: sheet.bodies,
            objects: sheet.objects,
            links: sheet.links,
            events: none,
        },
        &mut *out,
    ) {
        Err(refusal) => printing::refuse(refusal.number, refusal.place, out),
        Ok(size) => size as usize,
    }
}

// Checks the batch: where it is accepted, the text of book and register after it; else the answer and the pairs.
pub fn print_after(
    n: Counts,
    types: &[u32],
    floors: &[u32],
    relationships: &[u32],
    rules: &[u32],
    bodies: &[u32],
    objects: &mut [u32],
    links: &mut [u32],
    events: &[u32],
    out: &mut [u8],
) -> usize
    requires { (length objects.old ≤ 10240) × (length links.old ≤ 12288) × (room_for 32768 ≤ length out.old) }
    ensures { let s = sheet_of types.now floors.now relationships.now rules.now bodies.now objects.old links.old events.now in
        let bytes = after_printed 65536 n s in
        (out.new ≡ in_front bytes out.old) × (result ≡ length bytes)
        × RegisterLeft (lent_outcome n s false 65536) objects.old links.old objects.new links.new }
{
    let mut scratch_objects = [0u32; 10240];
    let mut scratch_links = [0u32; 12288];
    let mut list = [0u32; 65536];
    let checked = batch::check(
        n,
        types,
        floors,
        relationships,
        rules,
        bodies,
        &mut *objects,
        &mut *links,
        events,
        &mut scratch_objects,
        &mut scratch_links,
        &mut list,
    );
    let answer = checked.answer;
    let left = Counts {
        types: n.types,
        floors: n.floors,
        relationships: n.relationships,
        rules: n.rules,
        objects: checked.objects,
        links: checked.links,
        events: 0,
    };
    if let Answer::Accepted = answer {
        return print_text(
            left,
            &Sheet {
                types,
                floors,
                relationships,
                rules,
                bodies,
                objects: &*objects,
                links: &*links,
                events: &[],
            },
            out,
        );
    }
    printing::print(answer, checked.pairs, &list, out)
}
