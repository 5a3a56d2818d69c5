// What the forms of a rule's body list.
#![tactic(auto)]

ghost use Rattle.std.specs.Prelude.{◌≡◌, List, ◌+◌, ◌≤◌, ◌<◌, T, length, take};
ghost use Rattle.meaning.specs.Schema.{Floor};
ghost use Rattle.meaning.specs.Forms.{collection};
ghost use Rattle.tables.specs.Bodies.{reads, ending};
ghost use Rattle.tables.specs.Columns.{relationships_of, schema_of};
ghost use Rattle.body_rows.specs.Marks.{body_of, Starts};
ghost use Rattle.typing.specs.Types.{FlooredRows};
ghost use Rattle.type_marks.specs.Marks.{places, Added};
ghost use Rattle.type_marks.specs.Lists.{part_marks, sum_marks};

use body_rows::body::{COLLECTION, FIRST, NONE, SECOND, field, shape};
use typing::{Place, member_type};

const SUM: u32 = 17;

// Marks what a sum lists besides its collection: the sets of its members' cell. What is no sum lists nothing besides.
fn mark_sum(
    relationships: &[u32],
    bodies: &[u32],
    starts: &[u32; 65],
    at: Place,
    code: u32,
    x: u32,
    set: u32,
    marks: &mut [bool],
)
    requires { (Starts (body_of bodies.now at.rule) starts.now at.end)
        × (code ≡ 17 → T (reads collection (ending (body_of bodies.now at.rule) at.end)))
        × (length marks.old ≡ places) × (set < 4) }
    ensures { Added marks.old marks.new (λ place.
        sum_marks (relationships_of at.relationships relationships.now) set place code x
        (ending (body_of bodies.now at.rule) at.end).form) }
{
    if code != SUM {
        return;
    }
    let member = member_type(relationships, bodies, starts, at);
    type_marks::put_cell(member, x, set, marks);
}

// Marks what moves a form in a direction of the set, by the types of its variables; `floored` marks the sums over floored cells.
pub fn mark_form(
    types: &[u32],
    relationships: &[u32],
    bodies: &[u32],
    starts: &[u32; 65],
    floored: &[bool; 64],
    env: &[u32; 64],
    at: Place,
    set: u32,
    marks: &mut [bool],
)
    requires { (Starts (body_of bodies.now at.rule) starts.now at.end)
        × T (ending (body_of bodies.now at.rule) at.end).sound
        × (length env.now ≡ 64) × (at.depth + at.end ≤ 65)
        × (length marks.old ≡ places) × (set < 4) }
    ensures { (length marks.new ≡ places)
        × ((fs : List Floor) → FlooredRows
        (schema_of at.types types.now fs at.relationships relationships.now)
        (body_of bodies.now at.rule) at.end floored.now
        → Added marks.old marks.new (λ place.
        part_marks (schema_of at.types types.now fs at.relationships relationships.now)
        (ending (body_of bodies.now at.rule) at.end).form (take at.depth env.now) set place)) }
{
    let row = at.end - 1;
    let code = field(bodies, at.rule, row, 0);
    let x = field(bodies, at.rule, row, 1);
    if shape(code, SECOND) == NONE {
        let y = field(bodies, at.rule, row, 2);
        type_marks::put_leaf(types, relationships, env, at, code, x, y, set, marks);
        return;
    }
    let index = row as usize;
    let to_second = directions::pass(code, floored[index], directions::SECOND, set);
    let mut second = at;
    second.end = row;
    if shape(code, FIRST) == NONE {
        mark_sum(relationships, bodies, starts, second, code, x, set, marks);
        mark_form(
            types,
            relationships,
            bodies,
            starts,
            floored,
            env,
            second,
            to_second,
            marks,
        );
        return;
    }
    let mut first = at;
    first.end = starts[index];
    let to_first = directions::pass(code, false, directions::FIRST, set);
    mark_form(
        types,
        relationships,
        bodies,
        starts,
        floored,
        env,
        first,
        to_first,
        marks,
    );
    if shape(code, FIRST) != COLLECTION {
        mark_form(
            types,
            relationships,
            bodies,
            starts,
            floored,
            env,
            second,
            to_second,
            marks,
        );
        return;
    }
    let mut inner = *env;
    let new = at.depth as usize;
    inner[new] = member_type(relationships, bodies, starts, first);
    second.depth = at.depth + 1;
    mark_form(
        types,
        relationships,
        bodies,
        starts,
        floored,
        &inner,
        second,
        to_second,
        marks,
    );
}
