// The forward rule: whether a form of a rule's body may move, at rows of the register at the end. "Members are always those at the end."
#![tactic(auto)]

ghost use Rattle.std.specs.Prelude.{◌≡◌, map, ◌-◌, ◌<◌, get_or, take};
ghost use Rattle.meaning.specs.Limits.{max_types};
ghost use Rattle.meaning.specs.Lists.{any};
ghost use Rattle.meaning.specs.Schema.{Schema};
ghost use Rattle.meaning.specs.Forms.{collection};
ghost use Rattle.meaning.specs.Reach.{Change, role_moves, all_moves, cell_moves, kind_moves};
ghost use Rattle.directions.specs.Sets.{some_of};
ghost use Rattle.body_rows.specs.Marks.{body_of};
ghost use Rattle.typing.specs.Types.{FlooredRows};
ghost use Rattle.walks.specs.Site.{id_in, site_in};
ghost use Rattle.walks.specs.Values.{members_of};
ghost use Rattle.ocl.specs.Ready.{Ready};
ghost use Rattle.trace_places.specs.Traces.{TracesIn, TracedIn};
ghost use Rattle.reach.specs.Moves.{leaf_moves, moves_at, moves_over};
ghost use Rattle.reach.specs.Able.{Able, LeafAble, OverAble};

use body_rows::body::{COLLECTION, FIRST, NONE, SECOND, field, shape};
use directions::{DOWN, UP};
use ocl::Place;
use tables::{Counts, Sheet};

// The codes of rows.
const NUM: u32 = 14;

const CELL: u32 = 15;

const SUM: u32 = 17;

const ROLE: u32 = 20;

const ALL: u32 = 21;

// Whether a role from the object in a row moves in a direction of the set.
fn role_moved(n: Counts, sheet: &Sheet, trace: &[u16; 16675], row: u32, role: u32, set: u32) -> bool
    requires { (TracesIn n sheet.now trace.now) × (row < n.objects) }
    ensures { (c : Change) → TracedIn c n sheet.now trace.now
        → result ≡ some_of set (role_moves c role (id_in sheet.now.objects.now row)) }
{
    let up = directions::contains(set, UP);
    if questions::ask_if(up, true, n, sheet, trace, row, questions::JOINED, role) {
        return true;
    }
    let down = directions::contains(set, DOWN);
    questions::ask_if(down, true, n, sheet, trace, row, questions::PARTED, role)
}

// Whether the kind of the object in a row moves in a direction of the set.
fn kind_moved(n: Counts, sheet: &Sheet, trace: &[u16; 16675], row: u32, t: u32, set: u32) -> bool
    requires { (TracesIn n sheet.now trace.now) × (row < n.objects) }
    ensures { (c : Change) → TracedIn c n sheet.now trace.now
        → result ≡ some_of set (kind_moves c (id_in sheet.now.objects.now row) t) }
{
    let up = directions::contains(set, UP);
    let there = schema::under(
        n.types,
        sheet.types,
        register::type_of(sheet.objects, row),
        t,
    );
    if questions::ask_if(up, there, n, sheet, trace, row, questions::SPECIALISED, t) {
        return true;
    }
    let down = directions::contains(set, DOWN);
    questions::ask_if(down, true, n, sheet, trace, row, questions::GENERALISED, t)
}

// Whether the set of all objects of a type moves in a direction of the set.
pub fn all_moved(n: Counts, sheet: &Sheet, trace: &[u16; 16675], t: u32, set: u32) -> bool
    requires { (TracesIn n sheet.now trace.now) × (t < max_types) }
    ensures { (c : Change) → TracedIn c n sheet.now trace.now
        → result ≡ some_of set (all_moves c t) }
{
    let at = (1536 + t) as usize;
    let moved = rows::wide(trace[at]);
    if directions::shared(set, moved, UP) {
        return true;
    }
    directions::shared(set, moved, DOWN)
}

// Whether a form without parts moves in a direction of the set, by its code and its first two fields. `depth` variables are bound.
fn leaf(
    n: Counts,
    sheet: &Sheet,
    trace: &[u16; 16675],
    vs: &[u32; 64],
    depth: u32,
    code: u32,
    x: u32,
    y: u32,
    set: u32,
) -> bool
    requires { (TracesIn n sheet.now trace.now)
        × (LeafAble n.objects vs.now depth code x) × (0 < set) × (set < 4) }
    ensures { (c : Change) → TracedIn c n sheet.now trace.now
        → result ≡ some_of set (leaf_moves c (map (id_in sheet.now.objects.now) (take depth vs.now)) code x y) }
{
    if code == ALL {
        return all_moved(n, sheet, trace, x, set);
    }
    if code == NUM {
        return false;
    }
    let at = x as usize;
    let row = vs[at];
    if code == CELL {
        return questions::ask(n, sheet, trace, row, questions::CELL_SET, y);
    }
    if code == ROLE {
        return role_moved(n, sheet, trace, row, y, set);
    }
    kind_moved(n, sheet, trace, row, y, set)
}

// Whether a cell of some member of a collection was set.
fn member_set(
    n: Counts,
    sheet: &Sheet,
    index: &[u16; 81920],
    spans: &[u32; 65],
    trace: &[u16; 16675],
    vs: &[u32; 64],
    of: Place,
    cell: u32,
) -> bool
    requires { (Ready (site_in n sheet.now index.now of.0) spans.now of.1 vs.now of.2 collection)
        × (TracesIn n sheet.now trace.now) }
    ensures { (c : Change) → TracedIn c n sheet.now trace.now
        → result ≡ any (λ m. cell_moves c m cell) (members_of
        (site_in n sheet.now index.now of.0)
        of.1 vs.now of.2) }
{
    let mut word = ocl::begin(n, sheet, index, spans, vs, of);
    while let Some(member) = ocl::next(n, sheet, index, spans, vs, of, word) {
        if questions::ask(n, sheet, trace, member.row, questions::CELL_SET, cell) {
            return true;
        }
        word = member.next;
    }
    false
}

// Whether some direction of the set moves the form that ends before the place; `floored` marks the sums over floored cells.
#[cycle(moved_over)]
pub fn moved(
    n: Counts,
    sheet: &Sheet,
    index: &[u16; 81920],
    spans: &[u32; 65],
    floored: &[bool; 64],
    trace: &[u16; 16675],
    vs: &[u32; 64],
    at: Place,
    set: u32,
) -> bool
    requires { ((S : Schema) × Able S (site_in n sheet.now index.now at.0) spans.now at.1 vs.now at.2)
        × (TracesIn n sheet.now trace.now) × (set < 4) }
    ensures { (c : Change) → TracedIn c n sheet.now trace.now
        → FlooredRows c.schema (body_of sheet.now.bodies.now at.0) at.1 floored.now
        → result ≡ moves_at c
        (site_in n sheet.now index.now at.0)
        at.1 vs.now at.2 set }
{
    if set == 0 {
        return false;
    }
    let rule = at.0;
    let row = at.1 - 1;
    let depth = at.2;
    let code = field(sheet.bodies, rule, row, 0);
    let x = field(sheet.bodies, rule, row, 1);
    if shape(code, SECOND) == NONE {
        let y = field(sheet.bodies, rule, row, 2);
        return leaf(n, sheet, trace, vs, depth, code, x, y, set);
    }
    let from = row as usize;
    let to = directions::pass(code, floored[from], directions::SECOND, set);
    let second = Place(rule, row, depth);
    if shape(code, FIRST) == NONE {
        if moved(n, sheet, index, spans, floored, trace, vs, second, to) {
            return true;
        }
        if code != SUM {
            return false;
        }
        return member_set(n, sheet, index, spans, trace, vs, second, x);
    }
    let first = Place(rule, spans[from], depth);
    let to_first = directions::pass(code, false, directions::FIRST, set);
    if moved(n, sheet, index, spans, floored, trace, vs, first, to_first) {
        return true;
    }
    if shape(code, FIRST) != COLLECTION {
        return moved(n, sheet, index, spans, floored, trace, vs, second, to);
    }
    over(n, sheet, index, spans, floored, trace, vs, at, to)
}

// Whether some direction of the set moves the second part of a form over a collection at some member.
#[cycle(moved_over)]
fn over(
    n: Counts,
    sheet: &Sheet,
    index: &[u16; 81920],
    spans: &[u32; 65],
    floored: &[bool; 64],
    trace: &[u16; 16675],
    vs: &[u32; 64],
    at: Place,
    set: u32,
) -> bool
    requires { ((S : Schema) × OverAble S (site_in n sheet.now index.now at.0) spans.now at.1 vs.now at.2)
        × (TracesIn n sheet.now trace.now) × (set < 4) }
    ensures { (c : Change) → TracedIn c n sheet.now trace.now
        → FlooredRows c.schema (body_of sheet.now.bodies.now at.0) at.1 floored.now
        → result ≡ moves_over c
        (site_in n sheet.now index.now at.0)
        (at.1 - 1) vs.now at.2
        (members_of (site_in n sheet.now index.now at.0)
        (get_or spans.now (at.1 - 1) 0) vs.now at.2) set }
{
    let rule = at.0;
    let row = at.1 - 1;
    let depth = at.2;
    let from = row as usize;
    let of = Place(rule, spans[from], depth);
    let mut inner = *vs;
    let new = depth as usize;
    let mut word = ocl::begin(n, sheet, index, spans, vs, of);
    while let Some(member) = ocl::next(n, sheet, index, spans, vs, of, word) {
        inner[new] = member.row;
        let deeper = depth + 1;
        let to = Place(rule, row, deeper);
        if moved(n, sheet, index, spans, floored, trace, &inner, to, set) {
            return true;
        }
        word = member.next;
    }
    false
}
