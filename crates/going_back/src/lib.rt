// Going back from the events of a batch through a rule's body: each variable's set covers the objects at which the form may move.
#![tactic(auto)]

ghost use Rattle.std.specs.Prelude.{◌≡◌, Bool, true, false, List, ℕ, ◌+◌, ◌-◌, ◌<◌, T, get_or};
ghost use Rattle.meaning.specs.Forms.{collection};
ghost use Rattle.meaning.specs.Reach.{Change, cell_moves};
ghost use Rattle.tables.specs.Columns.{register_of};
ghost use Rattle.tables.specs.Bodies.{reads, ending, as_collection};
ghost use Rattle.body_rows.specs.Marks.{body_of, Starts};
ghost use Rattle.directions.specs.Sets.{some_of};
ghost use Rattle.typing.specs.Types.{FlooredRows};
ghost use Rattle.walks.specs.Site.{site_of, form_at, id_in, site_in};
ghost use Rattle.ocl.specs.Ready.{Ready};
ghost use Rattle.trace_places.specs.Traces.{TracesIn, TracedIn};
ghost use Rattle.reach.specs.Able.{LeafAble};
ghost use Rattle.going_back.specs.Back.{leads_into, through_members, reached_by, leaf_reached, Covered, turned, BaseRow};
ghost use Rattle.row_sets.specs.Sets.{sets_of, in_set, Room, Grown, GrownBelow};
ghost use Rattle.going_back.specs.Walkable.{Walkable, OverWalkable};

use body_rows::body::{COLLECTION, FIRST, NONE, SECOND, field, shape};
use ocl::Place;
use row_sets::{clear, has_some, put_answers, put_back, put_moved};
use tables::{Counts, Sheet};

// The codes of rows.
const NUM: u32 = 14;

const CELL: u32 = 15;

const SUM: u32 = 17;

const ROLE: u32 = 20;

const ALL: u32 = 21;

const SELECT: u32 = 22;

// The row of the collection below the selects of a collection.
fn base_row(bodies: &[u32], spans: &[u32; 65], of: Place) -> u32
    requires { (Starts (body_of bodies.now of.0) spans.now of.1) × T (reads collection (ending (body_of bodies.now of.0) of.1)) }
    ensures { BaseRow (body_of bodies.now of.0) of.1 result }
{
    let rule = of.0;
    let mut row = of.1 - 1;
    while field(bodies, rule, row, 0) == SELECT {
        let at = row as usize;
        row = spans[at] - 1;
    }
    row
}

// The role turned round.
fn turned(role: u32) -> u32
    requires { role < 64 }
    ensures { (result ≡ turned role) × (result < 64) }
{
    if role % 2 == 0 { role + 1 } else { role - 1 }
}

// Puts the rows from which a collection leads into the set of the variable after those that are bound, into the set of the variable that it names. Over
// all objects of a type that is everything, if the set has a row.
fn image(
    n: Counts,
    objects: &[u32],
    links: &[u32],
    index: &[u16; 81920],
    bodies: &[u32],
    spans: &[u32; 65],
    of: Place,
    marks: &mut [bool; 1024],
    sets: &mut [bool],
) -> bool
    requires { ((types vars : List ℕ) × Ready (site_of n types objects.now links.now index.now bodies.now of.0) spans.now of.1 vars of.2 collection)
        × (of.2 < 64) × (Room (sets_of marks.old sets.old)) }
    ensures { (Grown (sets_of marks.old sets.old) (sets_of marks.new sets.new))
        × ((c : Change) → c.end ≡ register_of n.objects objects.now n.links links.now → (set : ℕ → Bool)
        → ((row : ℕ) → row < n.objects → set (id_in objects.now row) ≡ true → in_set (sets_of marks.old sets.old) of.2 row ≡ true)
        → Covered (leads_into c (as_collection (ending (body_of bodies.now of.0) of.1).form) set)
        objects.now n.objects of.2 result (sets_of marks.new sets.new)) }
{
    let rule = of.0;
    let depth = of.2;
    let row = base_row(bodies, spans, of);
    if field(bodies, rule, row, 0) == ALL {
        return has_some(n, depth, marks, sets);
    }
    let v = field(bodies, rule, row, 1);
    let role = field(bodies, rule, row, 2);
    let back = turned(role);
    put_back(n, objects, links, index, back, depth, v, marks, sets);
    false
}

// Goes back from the members of a collection whose cell was set.
fn members(
    n: Counts,
    sheet: &Sheet,
    index: &[u16; 81920],
    spans: &[u32; 65],
    trace: &[u16; 16675],
    of: Place,
    cell: u32,
    marks: &mut [bool; 1024],
    sets: &mut [bool],
) -> bool
    requires { ((vars : List ℕ) × Ready (site_in n sheet.now index.now of.0) spans.now of.1 vars of.2 collection)
        × (TracesIn n sheet.now trace.now) × (0 < of.2) × (of.2 < 64) × (Room (sets_of marks.old sets.old)) }
    ensures { (GrownBelow of.2 (sets_of marks.old sets.old) (sets_of marks.new sets.new))
        × ((c : Change) → TracedIn c n sheet.now trace.now
        → Covered (leads_into c (as_collection (form_at (site_in n sheet.now index.now of.0) of.1)) (λ x. cell_moves c x cell))
        sheet.now.objects.now n.objects of.2 result (sets_of marks.new sets.new)) }
{
    let new = of.2;
    clear(n, new, sets);
    put_answers(n, sheet, trace, questions::CELL_SET, cell, new, marks, sets);
    image(
        n,
        sheet.objects,
        sheet.links,
        index,
        sheet.bodies,
        spans,
        of,
        marks,
        sets,
    )
}

// Goes back from a form without parts, by its code and its first two fields. Of what is brought into a type it does not matter here whether it is there at the end.
fn leaf(
    n: Counts,
    sheet: &Sheet,
    trace: &[u16; 16675],
    depth: u32,
    code: u32,
    x: u32,
    y: u32,
    set: u32,
    marks: &mut [bool; 1024],
    sets: &mut [bool],
) -> bool
    requires { ((vars : List ℕ) × LeafAble n.objects vars depth code x)
        × (TracesIn n sheet.now trace.now) × (0 < set) × (set < 4) × (Room (sets_of marks.old sets.old)) }
    ensures { (Grown (sets_of marks.old sets.old) (sets_of marks.new sets.new))
        × ((c : Change) → TracedIn c n sheet.now trace.now
        → Covered (λ v u. some_of set (leaf_reached c code x y v u)) sheet.now.objects.now n.objects depth result (sets_of marks.new sets.new)) }
{
    if code == ALL {
        return reach::all_moved(n, sheet, trace, x, set);
    }
    if code == NUM {
        return false;
    }
    if code == CELL {
        put_answers(n, sheet, trace, questions::CELL_SET, y, x, marks, sets);
        return false;
    }
    if code == ROLE {
        put_moved(
            n,
            sheet,
            trace,
            questions::JOINED,
            questions::PARTED,
            y,
            x,
            set,
            marks,
            sets,
        );
        return false;
    }
    put_moved(
        n,
        sheet,
        trace,
        questions::SPECIALISED,
        questions::GENERALISED,
        y,
        x,
        set,
        marks,
        sets,
    );
    false
}

// Goes back from a movement, in some direction of the set, of the form that ends before the place. `floored` marks the
// sums over floored cells. It answers whether everything is reached.
#[cycle(back_over)]
pub fn back(
    n: Counts,
    sheet: &Sheet,
    index: &[u16; 81920],
    spans: &[u32; 65],
    floored: &[bool; 64],
    trace: &[u16; 16675],
    at: Place,
    set: u32,
    marks: &mut [bool; 1024],
    sets: &mut [bool],
) -> bool
    requires { (Walkable (site_in n sheet.now index.now at.0) spans.now at.1 at.2)
        × (TracesIn n sheet.now trace.now) × (set < 4) × (Room (sets_of marks.old sets.old)) }
    ensures { (GrownBelow at.2 (sets_of marks.old sets.old) (sets_of marks.new sets.new))
        × ((c : Change) → TracedIn c n sheet.now trace.now
        → FlooredRows c.schema (body_of sheet.now.bodies.now at.0) at.1 floored.now
        → Covered (reached_by c (form_at (site_in n sheet.now index.now at.0) at.1) at.2 set)
        sheet.now.objects.now n.objects at.2 result (sets_of marks.new sets.new)) }
{
    if set == 0 {
        return false;
    }
    let rule = at.0;
    let row = at.1 - 1;
    let depth = at.2;
    let code = field(sheet.bodies, rule, row, 0);
    let x = field(sheet.bodies, rule, row, 1);
    if shape(code, SECOND) == NONE {
        let y = field(sheet.bodies, rule, row, 2);
        return leaf(n, sheet, trace, depth, code, x, y, set, marks, sets);
    }
    let from = row as usize;
    let to = directions::pass(code, floored[from], directions::SECOND, set);
    let second = Place(rule, row, depth);
    if shape(code, FIRST) == NONE {
        if back(
            n, sheet, index, spans, floored, trace, second, to, marks, sets,
        ) {
            return true;
        }
        if code != SUM {
            return false;
        }
        return members(n, sheet, index, spans, trace, second, x, marks, sets);
    }
    let first = Place(rule, spans[from], depth);
    let to_first = directions::pass(code, false, directions::FIRST, set);
    if back(
        n, sheet, index, spans, floored, trace, first, to_first, marks, sets,
    ) {
        return true;
    }
    if shape(code, FIRST) != COLLECTION {
        return back(
            n, sheet, index, spans, floored, trace, second, to, marks, sets,
        );
    }
    over(n, sheet, index, spans, floored, trace, at, to, marks, sets)
}

// Goes back from a movement of the second part of a form over a collection: its members are the new variable, and lead back through the collection.
#[cycle(back_over)]
fn over(
    n: Counts,
    sheet: &Sheet,
    index: &[u16; 81920],
    spans: &[u32; 65],
    floored: &[bool; 64],
    trace: &[u16; 16675],
    at: Place,
    dirs: u32,
    marks: &mut [bool; 1024],
    sets: &mut [bool],
) -> bool
    requires { (OverWalkable (site_in n sheet.now index.now at.0) spans.now at.1 at.2)
        × (TracesIn n sheet.now trace.now) × (dirs < 4) × (Room (sets_of marks.old sets.old)) }
    ensures { (GrownBelow at.2 (sets_of marks.old sets.old) (sets_of marks.new sets.new))
        × ((c : Change) → TracedIn c n sheet.now trace.now
        → FlooredRows c.schema (body_of sheet.now.bodies.now at.0) at.1 floored.now
        → Covered (through_members c
        (as_collection (form_at (site_in n sheet.now index.now at.0) (get_or spans.now (at.1 - 1) 0)))
        at.2 (reached_by c (form_at (site_in n sheet.now index.now at.0) (at.1 - 1)) (at.2 + 1) dirs))
        sheet.now.objects.now n.objects at.2 result (sets_of marks.new sets.new)) }
{
    let rule = at.0;
    let row = at.1 - 1;
    let new = at.2;
    clear(n, new, sets);
    let inner = Place(rule, row, new + 1);
    if back(
        n, sheet, index, spans, floored, trace, inner, dirs, marks, sets,
    ) {
        return true;
    }
    let from = row as usize;
    let of = Place(rule, spans[from], new);
    image(
        n,
        sheet.objects,
        sheet.links,
        index,
        sheet.bodies,
        spans,
        of,
        marks,
        sets,
    )
}
