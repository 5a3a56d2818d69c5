// Whether the forms of a body are well typed. That asks nothing of the floors, so it is said of the schema without them.
#![tactic(auto)]

ghost use Rattle.std.specs.Prelude.{◌≡◌, ◌+◌, ◌≤◌, T, length, take, []};
ghost use Rattle.meaning.specs.Forms.{collection};
ghost use Rattle.tables.specs.Bodies.{reads, ending, whole_body};
ghost use Rattle.tables.specs.Columns.{floors_of, relationships_of, schema_of};
ghost use Rattle.body_rows.specs.Marks.{body_of, Starts};
ghost use Rattle.typing.specs.Types.{typed_part, member_of, summed, floored_over, FlooredRows, typed_leaf};

use body_rows::body::{COLLECTION, FIRST, NONE, SECOND, field, shape};

// The codes of operators.
const KIND: u32 = 13;

const NUM: u32 = 14;

const CELL: u32 = 15;

const SUM: u32 = 17;

const ALL: u32 = 21;

const SELECT: u32 = 22;

// A form of a rule's body: it ends before row `end` of the rule, and its variables are the first `depth`. Besides, how many types, floors
// and relationships are used.
#[derive(Clone, Copy)]
pub struct Place {
    pub types: u32,
    pub floors: u32,
    pub relationships: u32,
    pub rule: u32,
    pub end: u32,
    pub depth: u32,
}

// The type of a collection's members.
pub fn member_type(relationships: &[u32], bodies: &[u32], starts: &[u32; 65], at: Place) -> u32
    requires { (Starts (body_of bodies.now at.rule) starts.now at.end) × T (reads collection (ending (body_of bodies.now at.rule) at.end)) }
    ensures { result ≡ member_of (relationships_of at.relationships relationships.now) (ending (body_of bodies.now at.rule) at.end).form }
{
    let rule = at.rule;
    let mut row = at.end - 1;
    while field(bodies, rule, row, 0) == SELECT {
        let index = row as usize;
        row = starts[index] - 1;
    }
    let x = field(bodies, rule, row, 1);
    if field(bodies, rule, row, 0) == ALL {
        return x;
    }
    let role = field(bodies, rule, row, 2);
    schema::far_type(at.relationships, relationships, role)
}

// Whether a row without parts is well typed.
fn leaf(
    types: &[u32],
    relationships: &[u32],
    env: &[u32; 64],
    at: Place,
    code: u32,
    x: u32,
    y: u32,
) -> bool
    requires { (length env.now ≡ 64) × (at.depth ≤ 64) }
    ensures { result ≡ typed_leaf
        (schema_of at.types types.now [] at.relationships relationships.now)
        (take at.depth env.now) code x y }
{
    if code == NUM {
        return true;
    }
    if code == ALL {
        return x < at.types;
    }
    if at.depth <= x {
        return false;
    }
    if code == KIND {
        return y < at.types;
    }
    let index = x as usize;
    let t = env[index];
    if code == CELL {
        return y < schema::cells_of(at.types, types, t);
    }
    if at.relationships <= y / 2 {
        return false;
    }
    let near = schema::near_type(at.relationships, relationships, y);
    schema::under(at.types, types, t, near)
}

// Whether a sum over a collection names a cell of its members; what is no sum names none.
fn summable(
    types: &[u32],
    relationships: &[u32],
    bodies: &[u32],
    starts: &[u32; 65],
    at: Place,
    code: u32,
    x: u32,
) -> bool
    requires { (Starts (body_of bodies.now at.rule) starts.now at.end) × (code ≡ 17 → T (reads collection (ending (body_of bodies.now at.rule) at.end))) }
    ensures { result ≡ summed
        (schema_of at.types types.now [] at.relationships relationships.now)
        code x (ending (body_of bodies.now at.rule) at.end).form }
{
    if code != SUM {
        return true;
    }
    let member = member_type(relationships, bodies, starts, at);
    x < schema::cells_of(at.types, types, member)
}

// Whether a cell of a collection's members is floored.
fn floored_sum(
    types: &[u32],
    floors: &[u32],
    relationships: &[u32],
    bodies: &[u32],
    starts: &[u32; 65],
    at: Place,
    x: u32,
) -> bool
    requires { (Starts (body_of bodies.now at.rule) starts.now at.end) × T (reads collection (ending (body_of bodies.now at.rule) at.end)) }
    ensures { result ≡ floored_over
        (schema_of at.types types.now (floors_of at.floors floors.now) at.relationships relationships.now)
        x (ending (body_of bodies.now at.rule) at.end).form }
{
    let member = member_type(relationships, bodies, starts, at);
    schema::floors::floored(at.types, types, at.floors, floors, member, x)
}

// Which rows of a whole body are sums over a floored cell.
pub fn floored_rows(
    types: &[u32],
    floors: &[u32],
    relationships: &[u32],
    bodies: &[u32],
    starts: &[u32; 65],
    at: Place,
) -> [bool; 64]
    requires { (Starts (body_of bodies.now at.rule) starts.now at.end) × T (whole_body (body_of bodies.now at.rule) at.end) }
    ensures { FlooredRows
        (schema_of at.types types.now (floors_of at.floors floors.now) at.relationships relationships.now)
        (body_of bodies.now at.rule) at.end result }
{
    let mut floored = [false; 64];
    for row in 0..at.end {
        let mut sum = false;
        if field(bodies, at.rule, row, 0) == SUM {
            let mut part = at;
            part.end = row;
            let x = field(bodies, at.rule, row, 1);
            sum = floored_sum(types, floors, relationships, bodies, starts, part, x);
        }
        let index = row as usize;
        floored[index] = sum;
    }
    floored
}

// Whether a form is well typed, by the types of its variables. The types past theirs are room for those of the variables inside it.
pub fn typed(
    types: &[u32],
    relationships: &[u32],
    bodies: &[u32],
    starts: &[u32; 65],
    env: &mut [u32; 64],
    at: Place,
) -> bool
    requires { (Starts (body_of bodies.now at.rule) starts.now at.end)
        × T (ending (body_of bodies.now at.rule) at.end).sound
        × (length env.old ≡ 64) × (at.depth + at.end ≤ 65) }
    ensures { (result ≡ typed_part
        (schema_of at.types types.now [] at.relationships relationships.now)
        (take at.depth env.old) (ending (body_of bodies.now at.rule) at.end).form)
        × (length env.new ≡ 64) × (take at.depth env.new ≡ take at.depth env.old) }
{
    let row = at.end - 1;
    let code = field(bodies, at.rule, row, 0);
    let x = field(bodies, at.rule, row, 1);
    if shape(code, SECOND) == NONE {
        let y = field(bodies, at.rule, row, 2);
        return leaf(types, relationships, env, at, code, x, y);
    }
    let mut second = at;
    second.end = row;
    if shape(code, FIRST) == NONE {
        if !summable(types, relationships, bodies, starts, second, code, x) {
            return false;
        }
        return typed(types, relationships, bodies, starts, env, second);
    }
    let index = row as usize;
    let mut first = at;
    first.end = starts[index];
    if !typed(types, relationships, bodies, starts, env, first) {
        return false;
    }
    if shape(code, FIRST) != COLLECTION {
        return typed(types, relationships, bodies, starts, env, second);
    }
    let new = at.depth as usize;
    env[new] = member_type(relationships, bodies, starts, first);
    second.depth = at.depth + 1;
    typed(types, relationships, bodies, starts, env, second)
}
