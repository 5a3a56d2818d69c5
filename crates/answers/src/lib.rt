// What a program prints of a text, and of tables that were read.
#![tactic(auto)]

ghost use Rattle.std.specs.Prelude.{◌≡◌, false, ◌/◌, ◌≤◌, length};
ghost use Rattle.rows.specs.Rows.{in_front};
ghost use Rattle.tables.specs.Layouts.{sheet_of};
ghost use Rattle.pair_list.specs.Pairs.{pair_words};
ghost use Rattle.batch.specs.Checked.{lent_outcome, RegisterLeft};
ghost use Rattle.printing.specs.Printed.{room_for};
ghost use Rattle.answers.specs.Checks.{batch_printed, check_prints};

use printing::{print, refuse};
use tables::Counts;

// The batch check of tables that were read, with a scratch no shorter than they are.
pub fn check_tables(
    n: Counts,
    types: &[u32],
    floors: &[u32],
    relationships: &[u32],
    rules: &[u32],
    bodies: &[u32],
    objects: &mut [u32],
    links: &mut [u32],
    events: &[u32],
    scratch_objects: &mut [u32],
    scratch_links: &mut [u32],
    list: &mut [u32],
    out: &mut [u8],
) -> usize
    requires { (length objects.old ≤ length scratch_objects.old) × (length links.old ≤ length scratch_links.old) × (room_for (length list.old / 2) ≤ length out.old) }
    ensures { let s = sheet_of types.now floors.now relationships.now rules.now bodies.now objects.old links.old events.now in
        let o = lent_outcome n s false (length list.old) in
        let bytes = batch_printed (length list.old) n s in
        (out.new ≡ in_front bytes out.old) × (result ≡ length bytes) × (list.new ≡ in_front (pair_words o.pairs) list.old)
        × RegisterLeft o objects.old links.old objects.new links.new }
{
    let checked = batch::check(
        n,
        types,
        floors,
        relationships,
        rules,
        bodies,
        objects,
        links,
        events,
        scratch_objects,
        scratch_links,
        &mut *list,
    );
    let answer = checked.answer;
    print(answer, checked.pairs, &*list, out)
}

// The same with the scratch and the list that `check` lends.
fn check_read(
    n: Counts,
    types: &[u32],
    floors: &[u32],
    relationships: &[u32],
    rules: &[u32],
    bodies: &[u32],
    objects: &mut [u32],
    links: &mut [u32],
    events: &[u32],
    out: &mut [u8],
) -> usize
    requires { (length objects.old ≤ 1280) × (length links.old ≤ 1536) × (room_for 1024 ≤ length out.old) }
    ensures { let s = sheet_of types.now floors.now relationships.now rules.now bodies.now objects.old links.old events.now in
        let bytes = batch_printed 2048 n s in
        (out.new ≡ in_front bytes out.old) × (result ≡ length bytes) }
{
    let mut scratch_objects = [0u32; 1280];
    let mut scratch_links = [0u32; 1536];
    let mut list = [0u32; 2048];
    check_tables(
        n,
        types,
        floors,
        relationships,
        rules,
        bodies,
        objects,
        links,
        events,
        &mut scratch_objects,
        &mut scratch_links,
        &mut list,
        out,
    )
}

// Reads a text, checks its batch, and prints what the check says at the front of the lent bytes; answers how many bytes that is.
pub fn check(text: &[u8], out: &mut [u8; 32768]) -> usize
    ensures { (out.new ≡ in_front (check_prints text.now) out.old) × (result ≡ length (check_prints text.now)) }
{
    if 8192 < text.len() {
        return refuse(2, 0, out);
    }
    let mut types = [0u32; 64];
    let mut floors = [0u32; 512];
    let mut relationships = [0u32; 64];
    let mut rules = [0u32; 16];
    let mut bodies = [0u32; 2048];
    let mut objects = [0u32; 1280];
    let mut links = [0u32; 1536];
    let mut events = [0u32; 256];
    match reader::read(
        text,
        &mut types,
        &mut floors,
        &mut relationships,
        &mut rules,
        &mut bodies,
        &mut objects,
        &mut links,
        &mut events,
    ) {
        Err(refusal) => refuse(refusal.number, refusal.place, out),
        Ok(n) => check_read(
            n,
            &types,
            &floors,
            &relationships,
            &rules,
            &bodies,
            &mut objects,
            &mut links,
            &events,
            out,
        ),
    }
}
