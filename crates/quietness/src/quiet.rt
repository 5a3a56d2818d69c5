// Whether a rule's body is quiet: an object without links, at the roles that count, must satisfy it.
ghost use Rattle.std.specs.Prelude.{◌≡◌, true, ◌&&◌, ◌||◌, T};
ghost use Rattle.tables.specs.Bodies.{as_truth, ending};
ghost use Rattle.tables.specs.Columns.{relationships_of};
ghost use Rattle.body_rows.specs.Marks.{body_of, Starts};
ghost use Rattle.quietness.specs.Quiet.{turn, connects, quantifies, joined, counted, quiet_part, self_part, still_of};

use body_rows::body::field;
use typing::Place;

const NOT: u32 = 6;

const AND: u32 = 7;

const OR: u32 = 8;

const IMPLIES: u32 = 10;

const FORALL: u32 = 11;

const EXISTS: u32 = 12;

const ROLE: u32 = 20;

// Which roles of self count: every one, or those that start at the context type. Besides, how many relationships are used.
#[derive(Clone, Copy)]
struct Roles {
    every: bool,
    context: u32,
    relationships: u32,
}

// What brings an object into a rule's context type and selects and lists nothing by itself: an insert, and a special.
#[derive(Clone, Copy)]
pub struct Still {
    pub insert: bool,
    pub special: bool,
}

fn turned(other: bool, want: bool) -> bool
    ensures { result ≡ turn other want }
{
    if other { !want } else { want }
}

fn of_two(all: bool, a: bool, b: bool) -> bool
    ensures { result ≡ joined all a b }
{
    if all { a && b } else { a || b }
}

fn connective(code: u32) -> bool
    ensures { result ≡ connects code }
{
    (code == AND) | (code == OR) | (code == IMPLIES)
}

fn quantifier(code: u32) -> bool
    ensures { result ≡ quantifies code }
{
    (code == FORALL) | (code == EXISTS)
}

// Whether a role counts.
fn counts(roles: Roles, relationships: &[u32], role: u32) -> bool
    ensures { result ≡ counted roles.every (relationships_of roles.relationships relationships.now) roles.context role }
{
    if roles.every {
        return true;
    }
    schema::near_type(roles.relationships, relationships, role) == roles.context
}

// Whether a form is a role of self that counts.
fn of_self(roles: Roles, relationships: &[u32], bodies: &[u32], rule: u32, end: u32) -> bool
    requires { T (ending (body_of bodies.now rule) end).sound }
    ensures { result ≡ self_part (counted roles.every (relationships_of roles.relationships relationships.now) roles.context)
        (ending (body_of bodies.now rule) end).form }
{
    let row = end - 1;
    let role = field(bodies, rule, row, 0) == ROLE;
    let own = field(bodies, rule, row, 1) == 0;
    if !(role & own) {
        return false;
    }
    counts(roles, relationships, field(bodies, rule, row, 2))
}

// Whether an object without links at the roles that count must give a form the wanted truth. No part is walked twice: a connective asks one truth of each.
fn quietly(
    roles: Roles,
    relationships: &[u32],
    bodies: &[u32],
    starts: &[u32; 65],
    rule: u32,
    end: u32,
    want: bool,
) -> bool
    requires { (Starts (body_of bodies.now rule) starts.now end) × T (ending (body_of bodies.now rule) end).sound }
    ensures { result ≡ quiet_part (counted roles.every (relationships_of roles.relationships relationships.now) roles.context)
        (ending (body_of bodies.now rule) end).form want }
{
    let row = end - 1;
    let code = field(bodies, rule, row, 0);
    if code == NOT {
        return quietly(roles, relationships, bodies, starts, rule, row, !want);
    }
    let index = row as usize;
    let first = starts[index];
    if connective(code) {
        let other = turned(code == IMPLIES, want);
        let a = quietly(roles, relationships, bodies, starts, rule, first, other);
        let b = quietly(roles, relationships, bodies, starts, rule, row, want);
        return of_two(turned(code != AND, want), a, b);
    }
    if quantifier(code) {
        return turned(code == EXISTS, want) & of_self(roles, relationships, bodies, rule, first);
    }
    false
}

// Whether a form is quiet by the roles that count.
fn quiet(
    every: bool,
    relationships: &[u32],
    bodies: &[u32],
    starts: &[u32; 65],
    at: Place,
    context: u32,
) -> bool
    requires { (Starts (body_of bodies.now at.rule) starts.now at.end) × T (ending (body_of bodies.now at.rule) at.end).sound }
    ensures { result ≡ quiet_part (counted every (relationships_of at.relationships relationships.now) context)
        (ending (body_of bodies.now at.rule) at.end).form true }
{
    let roles = Roles {
        every,
        context,
        relationships: at.relationships,
    };
    quietly(roles, relationships, bodies, starts, at.rule, at.end, true)
}

// What selects and lists nothing by itself, with the form as a rule's body.
pub fn stillness(
    relationships: &[u32],
    bodies: &[u32],
    starts: &[u32; 65],
    at: Place,
    context: u32,
) -> Still
    requires { (Starts (body_of bodies.now at.rule) starts.now at.end) × T (ending (body_of bodies.now at.rule) at.end).sound }
    ensures { result ≡ still_of (relationships_of at.relationships relationships.now) context
        (as_truth (ending (body_of bodies.now at.rule) at.end).form) }
{
    Still {
        insert: quiet(true, relationships, bodies, starts, at, context),
        special: quiet(false, relationships, bodies, starts, at, context),
    }
}
