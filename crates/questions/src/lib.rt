// What the leaves of the reach rules ask of the events that name an object: a chain of places for each row.
#![tactic(auto)]

ghost use Rattle.std.specs.Prelude.{◌≡◌, Bool, ◌&&◌, not, ℕ, ◌/◌, ◌%◌, ◌≤◌, ◌<◌, eqb};
ghost use Rattle.meaning.specs.Reach.{Change, some_step, taken};
ghost use Rattle.tables.specs.Columns.{types_of, event_of, event_row};
ghost use Rattle.walks.specs.Site.{id_in};
ghost use Rattle.trace_places.specs.Questions.{named, asked, question_of, answers_at};
ghost use Rattle.trace_places.specs.Traces.{there_word, met_word, TracesIn, TracedIn};

use tables::{Counts, Sheet};
use trace_types::types::was_under;

// The questions, by what they are about: a cell; a role; a type.
pub const CELL_SET: u32 = 0;

pub const JOINED: u32 = 1;

pub const PARTED: u32 = 2;

pub const INSERTED: u32 = 3;

pub const SPECIALISED: u32 = 4;

pub const GENERALISED: u32 = 5;

// The kinds of events, by their places in document 01's order.
const INSERT: u32 = 0;

const SET: u32 = 2;

const JOIN: u32 = 3;

const PART: u32 = 4;

const SPECIAL: u32 = 5;

const GENERAL: u32 = 6;

// Whether an event that names its object at a place answers a question about a link.
fn link_answers(
    kind: u32,
    wanted: u32,
    relationship: u32,
    place: u32,
    role: u32,
    there: bool,
) -> bool
    ensures { result ≡ (eqb wanted kind && (eqb relationship (role / 2) && (eqb (place % 2) (role % 2) && there))) }
{
    if wanted != kind {
        return false;
    }
    if relationship != role / 2 {
        return false;
    }
    if place % 2 != role % 2 {
        return false;
    }
    there
}

// Whether one holds and not the other.
fn unless(a: bool, b: bool) -> bool
    ensures { result ≡ (a && not b) }
{
    if a { !b } else { false }
}

// Whether an event is of the kind that is asked for, its last field is not used, and the answer holds.
fn of_kind(kind: u32, wanted: u32, z: u32, holds: bool) -> bool
    ensures { result ≡ (eqb wanted kind && (eqb z 0 && holds)) }
{
    if wanted != kind {
        return false;
    }
    if z != 0 {
        return false;
    }
    holds
}

// Whether an event that gives its object the type `to` answers a question about a type.
fn type_answers(
    type_count: u32,
    types: &[u32],
    kind: u32,
    to: u32,
    z: u32,
    met: u32,
    question: u32,
    t: u32,
) -> bool
    requires { (3 ≤ question) × (question < 6) }
    ensures { (x : ℕ) (j : ℕ) (there : Bool) → result ≡ answers_at (types_of type_count types.now) (question_of question t) (event_of kind x to z) j met there }
{
    let is = schema::under(type_count, types, to, t);
    if question == INSERTED {
        return of_kind(kind, INSERT, z, is);
    }
    let was = was_under(type_count, types, met, t);
    if question == SPECIALISED {
        return of_kind(kind, SPECIAL, z, unless(is, was));
    }
    of_kind(kind, GENERAL, z, unless(was, is))
}

// Whether the event of a place answers a question about the object that it names there.
pub fn answered(
    type_count: u32,
    types: &[u32],
    events: &[u32],
    trace: &[u16; 16675],
    place: u32,
    question: u32,
    x: u32,
) -> bool
    requires { (place < 512) × (question < 6) }
    ensures { result ≡ answers_at (types_of type_count types.now) (question_of question x) (event_row events.now (place / 2))
        (place % 2) (met_word trace.now (place / 2)) (eqb (there_word trace.now (place / 2)) 1) }
{
    let i = place / 2;
    let kind = rows::word(events, tables::EVENT_WIDTH, i, 0);
    let a = rows::word(events, tables::EVENT_WIDTH, i, 1);
    let b = rows::word(events, tables::EVENT_WIDTH, i, 2);
    let z = rows::word(events, tables::EVENT_WIDTH, i, 3);
    if question == CELL_SET {
        return of_kind(kind, SET, 0, b == x);
    }
    if question == JOINED {
        let at = (1024 + i) as usize;
        let there = trace[at] == 1;
        return link_answers(kind, JOIN, a, place, x, there);
    }
    if question == PARTED {
        return link_answers(kind, PART, a, place, x, true);
    }
    let at = (1280 + i) as usize;
    let met = rows::wide(trace[at]);
    type_answers(type_count, types, kind, b, z, met, question, x)
}

// Whether some event of the batch that names the object in a row answers a question about it.
fn named(n: Counts, sheet: &Sheet, trace: &[u16; 16675], row: u32, question: u32, x: u32) -> bool
    requires { (TracesIn n sheet.now trace.now) × (row < n.objects) × (question < 6) }
    ensures { (c : Change) → TracedIn c n sheet.now trace.now
        → result ≡ named c (question_of question x) (id_in sheet.now.objects.now row) }
{
    let head = (14625 + 2 * row) as usize;
    let mut word = rows::wide(trace[head]);
    while word != 0 {
        let place = word - 1;
        if answered(
            n.types,
            sheet.types,
            sheet.events,
            trace,
            place,
            question,
            x,
        ) {
            return true;
        }
        let next = (512 + place) as usize;
        word = rows::wide(trace[next]);
    }
    false
}

// Whether a delete took a link of a role from the object in a row.
fn lost(n: Counts, sheet: &Sheet, trace: &[u16; 16675], row: u32, role: u32) -> bool
    requires { (TracesIn n sheet.now trace.now) × (row < n.objects) }
    ensures { (c : Change) → TracedIn c n sheet.now trace.now
        → result ≡ some_step c (taken role (id_in sheet.now.objects.now row)) }
{
    let head = (14626 + 2 * row) as usize;
    let mut word = rows::wide(trace[head]);
    while word != 0 {
        let slot = word - 1;
        let at = (8704 + slot) as usize;
        if rows::wide(trace[at]) == role {
            return true;
        }
        let next = (4352 + slot) as usize;
        word = rows::wide(trace[next]);
    }
    false
}

// Whether some event of the batch answers a question about the object in a row.
pub fn ask(n: Counts, sheet: &Sheet, trace: &[u16; 16675], row: u32, question: u32, x: u32) -> bool
    requires { (TracesIn n sheet.now trace.now) × (row < n.objects) × (question < 6) }
    ensures { (c : Change) → TracedIn c n sheet.now trace.now
        → result ≡ asked c (question_of question x) (id_in sheet.now.objects.now row) }
{
    if named(n, sheet, trace, row, question, x) {
        return true;
    }
    if question != PARTED {
        return false;
    }
    lost(n, sheet, trace, row, x)
}

// The same, asked only where both conditions hold.
pub fn ask_if(
    first: bool,
    second: bool,
    n: Counts,
    sheet: &Sheet,
    trace: &[u16; 16675],
    row: u32,
    question: u32,
    x: u32,
) -> bool
    requires { (TracesIn n sheet.now trace.now) × (row < n.objects) × (question < 6) }
    ensures { (c : Change) → TracedIn c n sheet.now trace.now
        → result ≡ (first && (second && asked c (question_of question x) (id_in sheet.now.objects.now row))) }
{
    if !first {
        return false;
    }
    if !second {
        return false;
    }
    ask(n, sheet, trace, row, question, x)
}
