// The tables of a text that is taken.
ghost use Rattle.std.specs.Prelude.{◌≡◌, List};
ghost use Rattle.tables.specs.Layouts.{sheet_of};
ghost use Rattle.text.specs.Entries.{Entry};
ghost use Rattle.text.specs.Texts.{taken};
ghost use Rattle.reader.specs.Reads.{lent_reading, sheet_after};

use filling::{clear_all, put_lines};

// The tables of a text that is taken: cleared, and its rows put in their places.
pub fn fill(
    text: &[u8],
    types: &mut [u32],
    floors: &mut [u32],
    relationships: &mut [u32],
    rules: &mut [u32],
    bodies: &mut [u32],
    objects: &mut [u32],
    links: &mut [u32],
    events: &mut [u32],
)
    requires { (es : List Entry) × (lent_reading text.now (sheet_of types.old floors.old relationships.old rules.old bodies.old objects.old links.old events.old) ≡ taken es) }
    ensures { let before = sheet_of types.old floors.old relationships.old rules.old bodies.old objects.old links.old events.old in
        let after = sheet_of types.new floors.new relationships.new rules.new bodies.new objects.new links.new events.new in
        after ≡ sheet_after (lent_reading text.now before) before }
{
    clear_all(
        types,
        floors,
        relationships,
        rules,
        bodies,
        objects,
        links,
        events,
    );
    put_lines(
        text,
        types,
        floors,
        relationships,
        rules,
        bodies,
        objects,
        links,
        events,
    );
}
