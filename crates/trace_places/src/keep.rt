// What is kept of each event of a batch in its trace: whether the link that it joins is there at the end, and the type that it met.
ghost use Rattle.std.specs.Prelude.{◌≡◌, List, ℕ, ◌≤◌, ◌<◌, eqb, length, get_or};
ghost use Rattle.meaning.specs.Limits.{max_events, max_types};
ghost use Rattle.meaning.specs.Register.{Object, has_link};
ghost use Rattle.meaning.specs.Events.{join, link_of};
ghost use Rattle.tables.specs.Columns.{event_row};
ghost use Rattle.register.specs.Tables.{LinksAscend, links_with};
ghost use Rattle.trace_places.specs.Making.{kept_event, Kept};

// The kind of an event that joins, by its place in document 01's order.
const JOIN: u32 = 3;

// Whether the link that an event joins is there at the end.
fn is_there(link_count: u32, links: &[u32], events: &[u32], i: u32) -> bool
    requires { LinksAscend link_count links.now }
    ensures { (os : List Object) (n a b : ℕ) → event_row events.now i ≡ join n a b
        → result ≡ has_link (links_with os link_count links.now) (link_of n a b) }
{
    let kind = rows::word(events, tables::EVENT_WIDTH, i, 0);
    let x = rows::word(events, tables::EVENT_WIDTH, i, 1);
    let y = rows::word(events, tables::EVENT_WIDTH, i, 2);
    let z = rows::word(events, tables::EVENT_WIDTH, i, 3);
    if kind != JOIN {
        return false;
    }
    match register::link_row(link_count, links, x, y, z) {
        Some(_) => true,
        None => false,
    }
}

// 1 where it holds, else 0.
pub fn bit(holds: bool) -> u32
    ensures { (eqb result 1 ≡ holds) × (result < 2) }
{
    if holds {
        return 1;
    }
    0
}

// Keeps both of an event.
fn write(i: u32, there: u32, met: u32, trace: &mut [u16])
    requires { (length trace.old ≡ 16675) × (i < max_events) × (there < 65536) × (met < 65536) }
    ensures { trace.new ≡ kept_event trace.old i there met }
{
    let first = (1024 + i) as usize;
    let second = (1280 + i) as usize;
    trace[first] = there as u16;
    trace[second] = met as u16;
}

// Keeps both of every event.
pub fn keep(
    link_count: u32,
    links: &[u32],
    event_count: u32,
    events: &[u32],
    met: &[u32; 256],
    trace: &mut [u16; 16675],
)
    requires { (LinksAscend link_count links.now) × (event_count ≤ max_events) × ((i : ℕ) → i < event_count → get_or met.now i 0 ≤ max_types) }
    ensures { Kept link_count links.now events.now met.now trace.old trace.new event_count }
{
    for i in 0..event_count {
        let there = bit(is_there(link_count, links, events, i));
        let at = i as usize;
        let t = met[at];
        write(i, there, t, trace);
    }
}
