// Marks of event types, and those of forms without parts.
#![tactic(auto)]

ghost use Rattle.std.specs.Prelude.{◌≡◌, ◌&&◌, ◌||◌, List, [], ◌∷◌, ◌≤◌, ◌<◌, length, take};
ghost use Rattle.meaning.specs.Lists.{same_list};
ghost use Rattle.meaning.specs.Schema.{ObjectType, Floor, Relationship};
ghost use Rattle.meaning.specs.Forms.{variable};
ghost use Rattle.meaning.specs.EventList.{set_of, role_lists};
ghost use Rattle.tables.specs.Columns.{types_of, relationships_of, schema_of};
ghost use Rattle.type_marks.specs.Marks.{places, words_at, marked, Added};
ghost use Rattle.type_marks.specs.Lists.{marked_by, type_lists, entry_lists, leaf_lists};

use directions::{DOWN, UP};
use quietness::quiet::Still;
use typing::Place;

// The kinds of events, by their places in document 01's order.
const INSERT: u32 = 0;

const DELETE: u32 = 1;

const SET: u32 = 2;

const JOIN: u32 = 3;

const PART: u32 = 4;

const SPECIAL: u32 = 5;

const GENERAL: u32 = 6;

// The codes of rows without parts that list something.
const KIND: u32 = 13;

const CELL: u32 = 15;

const ROLE: u32 = 20;

const ALL: u32 = 21;

// How many event types a kind can name.
const NUMBERS: u32 = 32;

const CELLS: u32 = 8;

// Marks an event type, if it is listed. Words that no event type has mark nothing.
pub fn put(listed: bool, kind: u32, number: u32, cell: u32, marks: &mut [bool])
    requires { (length marks.old ≡ places) × (kind < 7) }
    ensures { Added marks.old marks.new (λ place. listed && same_list (kind ∷ number ∷ cell ∷ []) (words_at place)) }
{
    if !listed {
        return;
    }
    if NUMBERS <= number {
        return;
    }
    if CELLS <= cell {
        return;
    }
    let at = ((kind * NUMBERS + number) * CELLS + cell) as usize;
    marks[at] = true;
}

// Marks what brings an object into a type, or takes one out, if it is listed: the one kind for a whole object, the other for one that
// changes its type, where the type has a parent.
fn put_type(
    listed: bool,
    whole: bool,
    parent: bool,
    coming: u32,
    changing: u32,
    t: u32,
    marks: &mut [bool],
)
    requires { (length marks.old ≡ places) × (coming < 7) × (changing < 7) }
    ensures { Added marks.old marks.new (λ place.
        listed && ((whole && same_list (coming ∷ t ∷ 0 ∷ []) (words_at place)) || (parent && same_list (changing ∷ t ∷ 0 ∷ []) (words_at place)))) }
{
    put(listed & whole, coming, t, 0, marks);
    put(listed & parent, changing, t, 0, marks);
}

// Marks what moves all objects of a type or, of one object, only its kind.
pub fn put_members(
    type_count: u32,
    types: &[u32],
    whole: bool,
    t: u32,
    set: u32,
    marks: &mut [bool],
)
    requires { length marks.old ≡ places }
    ensures { (fs : List Floor) (rs : List Relationship) → Added marks.old marks.new
        (marked_by set (type_lists (record { types = types_of type_count types.now; floors = fs; relationships = rs }) whole t)) }
{
    let parent = schema::has_parent(type_count, types, t);
    put_type(
        directions::contains(set, UP),
        whole,
        parent,
        INSERT,
        SPECIAL,
        t,
        marks,
    );
    put_type(
        directions::contains(set, DOWN),
        whole,
        parent,
        DELETE,
        GENERAL,
        t,
        marks,
    );
}

// Marks what brings an object into a rule's context type and is not still: an insert, and a special where the type has a parent.
pub fn put_context(type_count: u32, types: &[u32], still: Still, t: u32, marks: &mut [bool])
    requires { length marks.old ≡ places }
    ensures { (fs : List Floor) (rs : List Relationship) → Added marks.old marks.new
        (marked (entry_lists (record { types = types_of type_count types.now; floors = fs; relationships = rs }) still t)) }
{
    let parent = schema::has_parent(type_count, types, t);
    put(!still.insert, INSERT, t, 0, marks);
    put(!still.special & parent, SPECIAL, t, 0, marks);
}

// Marks what moves a role. A link is lost by a part, or with the object to which it leads.
fn put_role(relationship_count: u32, relationships: &[u32], role: u32, set: u32, marks: &mut [bool])
    requires { length marks.old ≡ places }
    ensures { (ts : List ObjectType) (fs : List Floor) → Added marks.old marks.new
        (marked_by set (role_lists (record { types = ts; floors = fs; relationships = relationships_of relationship_count relationships.now }) role)) }
{
    let gained = directions::contains(set, UP);
    let lost = directions::contains(set, DOWN);
    let far = schema::far_type(relationship_count, relationships, role);
    put(gained, JOIN, role / 2, 0, marks);
    put(lost, PART, role / 2, 0, marks);
    put(lost, DELETE, far, 0, marks);
}

// Marks what moves a cell of a type, whichever way.
pub fn put_cell(t: u32, cell: u32, set: u32, marks: &mut [bool])
    requires { (length marks.old ≡ places) × (set < 4) }
    ensures { Added marks.old marks.new (marked_by set (λ d. set_of t cell ∷ [])) }
{
    put(set != 0, SET, t, cell, marks);
}

// The type of a variable; 0 where it is not bound.
fn variable_type(env: &[u32; 64], depth: u32, v: u32) -> u32
    requires { (length env.now ≡ 64) × (depth ≤ 64) }
    ensures { result ≡ variable (take depth env.now) v }
{
    if depth <= v {
        return 0;
    }
    let at = v as usize;
    env[at]
}

// Marks what moves a form without parts, by its code and its first two fields.
pub fn put_leaf(
    types: &[u32],
    relationships: &[u32],
    env: &[u32; 64],
    at: Place,
    code: u32,
    x: u32,
    y: u32,
    set: u32,
    marks: &mut [bool],
)
    requires { (length marks.old ≡ places) × (length env.now ≡ 64) × (at.depth ≤ 64) × (set < 4) }
    ensures { (fs : List Floor) → Added marks.old marks.new (marked_by set (leaf_lists
        (schema_of at.types types.now fs at.relationships relationships.now)
        (take at.depth env.now) code x y)) }
{
    if code == KIND {
        put_members(at.types, types, false, y, set, marks);
        return;
    }
    if code == ALL {
        put_members(at.types, types, true, x, set, marks);
        return;
    }
    if code == ROLE {
        put_role(at.relationships, relationships, y, set, marks);
        return;
    }
    if code == CELL {
        put_cell(variable_type(env, at.depth, x), y, set, marks);
    }
}
