// What the program `park` prints of a text, by what is asked of it.
#![tactic(auto)]

pub mod words;

ghost use Rattle.std.specs.Prelude.{◌≡◌, ◌≤◌, length};
ghost use Rattle.rows.specs.Rows.{in_front};
ghost use Rattle.tables.specs.Layouts.{sheet_of};
ghost use Rattle.park_answers.specs.Prints.{tables_printed, park_prints};

use tables::{Counts, Sheet};

// What may be asked of a text: the batch check, the full check of its register, the event lists of its rules, or the text after its batch.
#[derive(Clone, Copy)]
pub enum Asked {
    Check,
    Full,
    Events,
    After,
}

// What is asked, printed of tables that were read.
fn print_tables(
    asked: Asked,
    n: Counts,
    types: &[u32],
    floors: &[u32],
    relationships: &[u32],
    rules: &[u32],
    bodies: &[u32],
    objects: &mut [u32],
    links: &mut [u32],
    events: &[u32],
    out: &mut [u8],
) -> usize
    requires { (length objects.old ≤ 10240) × (length links.old ≤ 12288) × (1048576 ≤ length out.old) }
    ensures { let s = sheet_of types.now floors.now relationships.now rules.now bodies.now objects.old links.old events.now in
        let bytes = tables_printed asked n s in
        (out.new ≡ in_front bytes out.old) × (result ≡ length bytes) }
{
    match asked {
        Asked::Check => park_tables::print_check(
            n,
            types,
            floors,
            relationships,
            rules,
            bodies,
            objects,
            links,
            events,
            out,
        ),
        Asked::Full => park_tables::print_full(
            n,
            &Sheet {
                types,
                floors,
                relationships,
                rules,
                bodies,
                objects: &*objects,
                links: &*links,
                events: &[],
            },
            out,
        ),
        Asked::Events => park_tables::print_events(
            n,
            &Sheet {
                types,
                floors,
                relationships,
                rules,
                bodies,
                objects: &[],
                links: &[],
                events: &[],
            },
            out,
        ),
        Asked::After => park_tables::print_after(
            n,
            types,
            floors,
            relationships,
            rules,
            bodies,
            objects,
            links,
            events,
            out,
        ),
    }
}

// Reads a text and prints what is asked of it at the front of the lent bytes, which suffice for every list and text; answers how many bytes that is.
pub fn print(asked: Asked, text: &[u8], out: &mut [u8; 1048576]) -> usize
    ensures { (out.new ≡ in_front (park_prints asked text.now) out.old) × (result ≡ length (park_prints asked text.now)) }
{
    if 65536 < text.len() {
        return printing::refuse(2, 0, out);
    }
    let mut types = [0u32; 64];
    let mut floors = [0u32; 512];
    let mut relationships = [0u32; 64];
    let mut rules = [0u32; 64];
    let mut bodies = [0u32; 8192];
    let mut objects = [0u32; 10240];
    let mut links = [0u32; 12288];
    let mut events = [0u32; 1024];
    match reader::read(
        text,
        &mut types,
        &mut floors,
        &mut relationships,
        &mut rules,
        &mut bodies,
        &mut objects,
        &mut links,
        &mut events,
    ) {
        Err(refusal) => printing::refuse(refusal.number, refusal.place, out),
        Ok(n) => print_tables(
            asked,
            n,
            &types,
            &floors,
            &relationships,
            &rules,
            &bodies,
            &mut objects,
            &mut links,
            &events,
            out,
        ),
    }
}
