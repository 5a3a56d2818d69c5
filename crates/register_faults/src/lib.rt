// Refusal 5 of a lent register.
#![tactic(auto)]

mod faults;

ghost use Rattle.std.specs.Prelude.{◌≡◌};
ghost use Rattle.meaning.specs.Lists.{first_of};
ghost use Rattle.meaning.specs.Register.{object_fault, link_fault};
ghost use Rattle.tables.specs.Columns.{types_of, floors_of, schema_of, register_of};
ghost use Rattle.tables.specs.Refusals.{found_of};

use register::search;

// Refusal 5: the first faulty object, else the first faulty link.
pub fn check(
    type_count: u32,
    types: &[u32],
    floor_count: u32,
    floors: &[u32],
    relationship_count: u32,
    relationships: &[u32],
    object_count: u32,
    objects: &[u32],
    link_count: u32,
    links: &[u32],
) -> Option<u32>
    ensures { result ≡ found_of (first_of
        (object_fault (types_of type_count types.now) (floors_of floor_count floors.now)
        (register_of object_count objects.now link_count links.now))
        (link_fault (schema_of type_count types.now (floors_of floor_count floors.now)
        relationship_count relationships.now)
        (register_of object_count objects.now link_count links.now))) }
{
    match faults::object_fault(
        type_count,
        types,
        floor_count,
        floors,
        object_count,
        objects,
    ) {
        Some(row) => Some(row),
        None => {
            let mut table = [0u16; 4096];
            search::guesses(object_count, objects, &mut table);
            faults::link_fault(
                type_count,
                types,
                relationship_count,
                relationships,
                object_count,
                objects,
                &table,
                link_count,
                links,
            )
        }
    }
}
