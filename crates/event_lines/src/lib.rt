// The event list of a rule, as one line.
#![tactic(auto)]

ghost use Rattle.std.specs.Prelude.{◌∷◌, ℕ, ◌+◌, ◌*◌, ◌≤◌, ◌<◌, length};
ghost use Rattle.rows.specs.Rows.{word_at};
ghost use Rattle.text.specs.Names.{name_of, first_event};
ghost use Rattle.line_writer.specs.Put.{Put};
ghost use Rattle.event_lines.specs.Events.{event_shown, events_shown, events_line, event_type_of, event_types_in, room_for_events};

use printing::pieces::number;

// The kind of a set, which names a cell too.
const SET: u32 = 2;

// The names of events, each after a space.
const NAMES: [u8; 44] = *b" insert delete set join part special general";

// Where each starts in NAMES, and where the last ends.
const STARTS: [usize; 8] = [0, 7, 14, 18, 23, 28, 36, 44];

// A space and the name of a kind of events.
fn kind_name(out: &mut [u8], at: usize, kind: u32) -> usize
    requires { kind < 7 }
    ensures { Put out.old at (32 ∷ name_of (first_event + kind)) out.new result }
{
    let names = NAMES;
    let k = kind as usize;
    let from = STARTS[k];
    let to = STARTS[k + 1];
    lexical::write_bytes(out, at, &names[from..to])
}

// An event type by its words: its kind's name, what it names, and the cell where it is a set.
fn event(out: &mut [u8], at: usize, kind: u32, named: u32, cell: u32) -> usize
    requires { kind < 7 }
    ensures { Put out.old at (event_shown (event_type_of kind named cell)) out.new result }
{
    let a = kind_name(&mut *out, at, kind);
    let b = number(&mut *out, a, named);
    if kind == SET {
        return number(out, b, cell);
    }
    b
}

// The first event types of the list.
fn events(out: &mut [u8], at: usize, count: u32, list: &[u16]) -> usize
    requires { (3 * count ≤ length list.now) × ((i : ℕ) → i < count → word_at list.now 3 i 0 < 7) × (at ≤ length out.old + 1) }
    ensures { Put out.old at (events_shown (event_types_in list.now count)) out.new result }
{
    let mut next = at;
    for i in 0..count {
        let place = (i as usize) * 3;
        let kind = rows::wide(list[place]);
        let named = rows::wide(list[place + 1]);
        let cell = rows::wide(list[place + 2]);
        next = event(&mut *out, next, kind, named, cell);
    }
    next
}

// The line of a rule's event list, given as its words, and how long it is at most.
pub fn line(out: &mut [u8], at: usize, rule: u32, count: u32, list: &[u16]) -> usize
    requires { (3 * count ≤ length list.now) × ((i : ℕ) → i < count → word_at list.now 3 i 0 < 7) }
    ensures { let bytes = events_line «rule» (event_types_in list.now count) in
        (Put out.old at bytes out.new result) × (length bytes ≤ room_for_events count) }
{
    let a = lexical::write_bytes(&mut *out, at, b"events");
    let b = number(&mut *out, a, rule);
    let c = events(&mut *out, b, count, list);
    lexical::write_bytes(out, c, b"\n")
}
