// The types that are above the type of an object: the one that an event met, one that an event names, the one at the end.
ghost use Rattle.std.specs.Prelude.{◌≡◌, false, ◌||◌, List, eqb, length, get_or};
ghost use Rattle.meaning.specs.Limits.{max_types};
ghost use Rattle.meaning.specs.Schema.{under};
ghost use Rattle.meaning.specs.Register.{Link, is_under};
ghost use Rattle.tables.specs.Columns.{types_of};
ghost use Rattle.register.specs.Tables.{ObjectsAscend, objects_with};
ghost use Rattle.trace_places.specs.Questions.{met_under};
ghost use Rattle.trace_places.specs.Making.{ForTypes};

// Whether an object whose type was `met` was under t; 32 is no type.
pub fn was_under(type_count: u32, types: &[u32], met: u32, t: u32) -> bool
    ensures { result ≡ met_under (types_of type_count types.now) met t }
{
    if met < meaning::MAX_TYPES {
        schema::under(type_count, types, met, t)
    } else {
        false
    }
}

// Puts the truth of type t; a number past the last type has none.
fn put(t: u32, truths: &mut [bool])
    requires { length truths.old ≡ max_types }
    ensures { ForTypes truths.new (λ u. get_or truths.old u false || eqb t u) }
{
    if t < meaning::MAX_TYPES {
        let at = t as usize;
        truths[at] = true;
    }
}

// For each type, whether t is under it: one walk up from t.
pub fn above(type_count: u32, types: &[u32], t: u32) -> [bool; 32]
    ensures { ForTypes result (under (types_of type_count types.now) t) }
{
    let mut truths = [false; 32];
    let mut at = t;
    for _ in 0..t {
        put(at, &mut truths);
        if !schema::has_parent(type_count, types, at) {
            return truths;
        }
        at = rows::word(types, tables::TYPE_WIDTH, at, 0);
    }
    put(at, &mut truths);
    truths
}

// For each type, whether an object whose type was `met` was under it.
pub fn met_above(type_count: u32, types: &[u32], met: u32) -> [bool; 32]
    ensures { ForTypes result (met_under (types_of type_count types.now) met) }
{
    if met < meaning::MAX_TYPES {
        above(type_count, types, met)
    } else {
        [false; 32]
    }
}

// For each type, whether the object of an id is there and under it.
pub fn end_above(
    type_count: u32,
    types: &[u32],
    object_count: u32,
    objects: &[u32],
    id: u32,
) -> [bool; 32]
    requires { ObjectsAscend object_count objects.now }
    ensures { (ls : List Link) →
        ForTypes result (is_under (types_of type_count types.now) (objects_with object_count objects.now ls) id) }
{
    match register::object_row(object_count, objects, id) {
        Some(row) => above(type_count, types, register::type_of(objects, row)),
        None => [false; 32],
    }
}
