// Sets of rows, one for each variable: self's, variable 0, is an array of marks; those of the variables within stand in one slice, at 1,024 times the
// variable's number. `put`, `in_set` and `clear` alone know it.
#![tactic(auto)]

ghost use Rattle.std.specs.Prelude.{◌≡◌, Bool, true, false, ◌&&◌, ◌||◌, List, ℕ, ◌*◌, ◌≤◌, ◌<◌, length, get_or};
ghost use Rattle.meaning.specs.Lists.{◌∈◌};
ghost use Rattle.meaning.specs.Register.{far_ends};
ghost use Rattle.meaning.specs.Reach.{Change, some_step, taken, up, down};
ghost use Rattle.tables.specs.Columns.{types_of, register_of};
ghost use Rattle.directions.specs.Sets.{has};
ghost use Rattle.link_index.specs.Slots.{Indexed};
ghost use Rattle.ocl.specs.Ready.{Steady};
ghost use Rattle.walks.specs.Site.{id_in};
ghost use Rattle.trace_places.specs.Questions.{named, asked, question_of};
ghost use Rattle.trace_places.specs.Traces.{place_answers, row_lost, loss_role, TracesIn, TracedIn};
ghost use Rattle.row_sets.specs.Sets.{sets_of, in_set, Room, Grown, Cleared};

use directions::{DOWN, UP};
use tables::{Counts, Sheet};

// The number of self among a rule's variables.
pub const SELF: u32 = 0;

// Puts a row into a variable's set.
fn put(v: u32, row: u32, marks: &mut [bool; 1024], sets: &mut [bool])
    requires { (v < 64) × (row < 1024) × (Room (sets_of marks.old sets.old)) }
    ensures { (Grown (sets_of marks.old sets.old) (sets_of marks.new sets.new))
        × (in_set (sets_of marks.new sets.new) v row ≡ true) }
{
    if v == SELF {
        let own = row as usize;
        marks[own] = true;
        return;
    }
    let at = (v * 1024 + row) as usize;
    sets[at] = true;
}

// Whether a row is in a variable's set.
fn in_set(v: u32, row: u32, marks: &[bool; 1024], sets: &[bool]) -> bool
    requires { (v < 64) × (row < 1024) × (Room (sets_of marks.now sets.now)) }
    ensures { result ≡ in_set (sets_of marks.now sets.now) v row }
{
    if v == SELF {
        let own = row as usize;
        return marks[own];
    }
    let at = (v * 1024 + row) as usize;
    sets[at]
}

// Puts an object's row into a variable's set. What is past the objects is no row of one.
fn mark(n: Counts, v: u32, row: u32, marks: &mut [bool; 1024], sets: &mut [bool])
    requires { (v < 64) × (n.objects ≤ 1024) × (Room (sets_of marks.old sets.old)) }
    ensures { (Grown (sets_of marks.old sets.old) (sets_of marks.new sets.new))
        × (row < n.objects → in_set (sets_of marks.new sets.new) v row ≡ true) }
{
    if n.objects <= row {
        return;
    }
    put(v, row, marks, sets);
}

// Puts the row that a place names into a variable's set, if the event of the place answers a question.
fn put_answer(
    n: Counts,
    types: &[u32],
    events: &[u32],
    trace: &[u16; 16675],
    place: u32,
    question: u32,
    x: u32,
    v: u32,
    marks: &mut [bool; 1024],
    sets: &mut [bool],
)
    requires { (place < 512) × (question < 6) × (v < 64) × (n.objects ≤ 1024) × (Room (sets_of marks.old sets.old)) }
    ensures { (Grown (sets_of marks.old sets.old) (sets_of marks.new sets.new))
        × (get_or trace.now place 0 < n.objects → place_answers (types_of n.types types.now) (question_of question x) events.now trace.now place ≡ true
        → in_set (sets_of marks.new sets.new) v (get_or trace.now place 0) ≡ true) }
{
    let at = place as usize;
    let row = rows::wide(trace[at]);
    if n.objects <= row {
        return;
    }
    if !questions::answered(n.types, types, events, trace, place, question, x) {
        return;
    }
    put(v, row, marks, sets);
}

// Puts the rows of the objects for which some event that names them answers a question into a variable's set.
fn put_named(
    n: Counts,
    sheet: &Sheet,
    trace: &[u16; 16675],
    question: u32,
    x: u32,
    v: u32,
    marks: &mut [bool; 1024],
    sets: &mut [bool],
)
    requires { (TracesIn n sheet.now trace.now) × (question < 6) × (v < 64) × (Room (sets_of marks.old sets.old)) }
    ensures { (Grown (sets_of marks.old sets.old) (sets_of marks.new sets.new))
        × ((c : Change) → TracedIn c n sheet.now trace.now
        → (row : ℕ) → row < n.objects → named c (question_of question x) (id_in sheet.now.objects.now row) ≡ true
        → in_set (sets_of marks.new sets.new) v row ≡ true) }
{
    for place in 0..2 * n.events {
        put_answer(
            n,
            sheet.types,
            sheet.events,
            trace,
            place,
            question,
            x,
            v,
            marks,
            sets,
        );
    }
}

// Puts the row of a loss into a variable's set, if it is one of the role.
fn put_loss(
    n: Counts,
    trace: &[u16; 16675],
    j: u32,
    role: u32,
    v: u32,
    marks: &mut [bool; 1024],
    sets: &mut [bool],
)
    requires { (j < 4352) × (v < 64) × (n.objects ≤ 1024) × (Room (sets_of marks.old sets.old)) }
    ensures { (Grown (sets_of marks.old sets.old) (sets_of marks.new sets.new))
        × (row_lost trace.now j < n.objects → loss_role trace.now j ≡ role
        → in_set (sets_of marks.new sets.new) v (row_lost trace.now j) ≡ true) }
{
    let at = (10272 + j) as usize;
    if rows::wide(trace[at]) != role {
        return;
    }
    let slot = (1568 + j) as usize;
    mark(n, v, rows::wide(trace[slot]), marks, sets);
}

// Puts the rows of the objects from which a role lost a link, taken along by a delete, into a variable's set.
fn put_lost(
    n: Counts,
    sheet: &Sheet,
    trace: &[u16; 16675],
    role: u32,
    v: u32,
    marks: &mut [bool; 1024],
    sets: &mut [bool],
)
    requires { (TracesIn n sheet.now trace.now) × (v < 64) × (Room (sets_of marks.old sets.old)) }
    ensures { (Grown (sets_of marks.old sets.old) (sets_of marks.new sets.new))
        × ((c : Change) → TracedIn c n sheet.now trace.now
        → (row : ℕ) → row < n.objects → some_step c (taken role (id_in sheet.now.objects.now row)) ≡ true
        → in_set (sets_of marks.new sets.new) v row ≡ true) }
{
    let count = rows::wide(trace[14624]);
    for j in 0..count {
        put_loss(n, trace, j, role, v, marks, sets);
    }
}

// Puts the rows of the objects for which some event answers a question into a variable's set.
pub fn put_answers(
    n: Counts,
    sheet: &Sheet,
    trace: &[u16; 16675],
    question: u32,
    x: u32,
    v: u32,
    marks: &mut [bool; 1024],
    sets: &mut [bool],
)
    requires { (TracesIn n sheet.now trace.now) × (question < 6) × (v < 64) × (Room (sets_of marks.old sets.old)) }
    ensures { (Grown (sets_of marks.old sets.old) (sets_of marks.new sets.new))
        × ((c : Change) → TracedIn c n sheet.now trace.now
        → (row : ℕ) → row < n.objects → asked c (question_of question x) (id_in sheet.now.objects.now row) ≡ true
        → in_set (sets_of marks.new sets.new) v row ≡ true) }
{
    put_named(n, sheet, trace, question, x, v, &mut *marks, &mut *sets);
    if question == questions::PARTED {
        put_lost(n, sheet, trace, x, v, &mut *marks, &mut *sets);
    }
}

// Puts the rows at the far end of a role from an object's row into a variable's set.
fn put_far(
    n: Counts,
    objects: &[u32],
    links: &[u32],
    index: &[u16; 81920],
    role: u32,
    row: u32,
    v: u32,
    marks: &mut [bool; 1024],
    sets: &mut [bool],
)
    requires { (Indexed n.objects objects.now n.links links.now index.now)
        × (Steady (register_of n.objects objects.now n.links links.now))
        × (role < 64) × (row < n.objects) × (v < 64) × (Room (sets_of marks.old sets.old)) }
    ensures { (Grown (sets_of marks.old sets.old) (sets_of marks.new sets.new))
        × ((y : ℕ) → y < n.objects
        → id_in objects.now y ∈ far_ends (register_of n.objects objects.now n.links links.now) role (id_in objects.now row)
        → in_set (sets_of marks.new sets.new) v y ≡ true) }
{
    let mut word = link_index::first_slot(index, role, row);
    while word != 0 {
        let slot = word - 1;
        mark(n, v, link_index::far_row(index, slot), marks, sets);
        word = link_index::next_slot(index, slot);
    }
}

// Puts the rows at the far end of a role from a row into a variable's set, if the row is in another one's set.
fn put_row(
    n: Counts,
    objects: &[u32],
    links: &[u32],
    index: &[u16; 81920],
    role: u32,
    from: u32,
    row: u32,
    v: u32,
    marks: &mut [bool; 1024],
    sets: &mut [bool],
)
    requires { (Indexed n.objects objects.now n.links links.now index.now)
        × (Steady (register_of n.objects objects.now n.links links.now))
        × (role < 64) × (row < n.objects) × (v < 64) × (Room (sets_of marks.old sets.old)) × (from < 64) }
    ensures { (Grown (sets_of marks.old sets.old) (sets_of marks.new sets.new))
        × (in_set (sets_of marks.old sets.old) from row ≡ true → (y : ℕ) → y < n.objects
        → id_in objects.now y ∈ far_ends (register_of n.objects objects.now n.links links.now) role (id_in objects.now row)
        → in_set (sets_of marks.new sets.new) v y ≡ true) }
{
    if !in_set(from, row, marks, sets) {
        return;
    }
    put_far(n, objects, links, index, role, row, v, marks, sets);
}

// Puts the rows at the far end of a role from each row of a set into a variable's set.
pub fn put_back(
    n: Counts,
    objects: &[u32],
    links: &[u32],
    index: &[u16; 81920],
    role: u32,
    from: u32,
    v: u32,
    marks: &mut [bool; 1024],
    sets: &mut [bool],
)
    requires { (Indexed n.objects objects.now n.links links.now index.now)
        × (Steady (register_of n.objects objects.now n.links links.now))
        × (role < 64) × (v < 64) × (Room (sets_of marks.old sets.old)) × (from < 64) }
    ensures { (Grown (sets_of marks.old sets.old) (sets_of marks.new sets.new))
        × ((x : ℕ) → x < n.objects → in_set (sets_of marks.old sets.old) from x ≡ true → (y : ℕ) → y < n.objects
        → id_in objects.now y ∈ far_ends (register_of n.objects objects.now n.links links.now) role (id_in objects.now x)
        → in_set (sets_of marks.new sets.new) v y ≡ true) }
{
    for row in 0..n.objects {
        put_row(n, objects, links, index, role, from, row, v, marks, sets);
    }
}

// Puts the rows of the objects for which some event answers a question into a variable's set, if it is wanted.
pub fn put_if(
    wanted: bool,
    n: Counts,
    sheet: &Sheet,
    trace: &[u16; 16675],
    question: u32,
    x: u32,
    v: u32,
    marks: &mut [bool; 1024],
    sets: &mut [bool],
)
    requires { (TracesIn n sheet.now trace.now) × (question < 6) × (v < 64) × (Room (sets_of marks.old sets.old)) }
    ensures { (Grown (sets_of marks.old sets.old) (sets_of marks.new sets.new))
        × ((c : Change) → TracedIn c n sheet.now trace.now
        → (row : ℕ) → row < n.objects → (wanted && asked c (question_of question x) (id_in sheet.now.objects.now row)) ≡ true
        → in_set (sets_of marks.new sets.new) v row ≡ true) }
{
    if !wanted {
        return;
    }
    put_answers(n, sheet, trace, question, x, v, marks, sets);
}

// Puts the rows of the objects for which some event answers the question of a direction of the set into a variable's set.
pub fn put_moved(
    n: Counts,
    sheet: &Sheet,
    trace: &[u16; 16675],
    gain: u32,
    loss: u32,
    x: u32,
    v: u32,
    set: u32,
    marks: &mut [bool; 1024],
    sets: &mut [bool],
)
    requires { (TracesIn n sheet.now trace.now) × (gain < 6) × (loss < 6) × (v < 64) × (Room (sets_of marks.old sets.old)) }
    ensures { (Grown (sets_of marks.old sets.old) (sets_of marks.new sets.new))
        × ((c : Change) → TracedIn c n sheet.now trace.now
        → (row : ℕ) → row < n.objects
        → ((has set up && asked c (question_of gain x) (id_in sheet.now.objects.now row)) || (has set down && asked c (question_of loss x) (id_in sheet.now.objects.now row))) ≡ true
        → in_set (sets_of marks.new sets.new) v row ≡ true) }
{
    let up = directions::contains(set, UP);
    put_if(up, n, sheet, trace, gain, x, v, marks, sets);
    let down = directions::contains(set, DOWN);
    put_if(down, n, sheet, trace, loss, x, v, marks, sets);
}

// Empties the set of a variable within.
pub fn clear(n: Counts, v: u32, sets: &mut [bool])
    requires { (0 < v) × (v < 64) × (n.objects ≤ 1024) × (length sets.old ≡ 65536) }
    ensures { (marks : List Bool) → Cleared v n.objects (sets_of marks sets.old) (sets_of marks sets.new) }
{
    for row in 0..n.objects {
        let at = (v * 1024 + row) as usize;
        sets[at] = false;
    }
}

// Whether a variable's set has a row.
pub fn has_some(n: Counts, v: u32, marks: &[bool; 1024], sets: &[bool]) -> bool
    requires { (v < 64) × (n.objects ≤ 1024) × (Room (sets_of marks.now sets.now)) }
    ensures { (row : ℕ) → row < n.objects → in_set (sets_of marks.now sets.now) v row ≡ true → result ≡ true }
{
    for row in 0..n.objects {
        if in_set(v, row, marks, sets) {
            return true;
        }
    }
    false
}
