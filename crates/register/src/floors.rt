// Whether an object's row is below a floor.
ghost use Rattle.std.specs.Prelude.{◌≡◌, ◌&&◌, get_or, pos};
ghost use Rattle.meaning.specs.Schema.{floored};
ghost use Rattle.meaning.specs.Register.{negative, below_floor};
ghost use Rattle.tables.specs.Columns.{types_of, floors_of, object_row};

use crate::columns;

// Whether a cell of an object's row is below 0, and floored for type t. Few are below 0, so the floors are asked of those alone.
fn cell_below(
    type_count: u32,
    types: &[u32],
    floor_count: u32,
    floors: &[u32],
    objects: &[u32],
    row: u32,
    t: u32,
    cell: u32,
) -> bool
    ensures { result ≡ (negative (get_or (object_row objects.now row).cells cell (pos 0))
        && floored (types_of type_count types.now) (floors_of floor_count floors.now) t cell) }
{
    if signed::is_negative(columns::cell_of(objects, row, cell)) {
        schema::floors::floored(type_count, types, floor_count, floors, t, cell)
    } else {
        false
    }
}

// Whether the cells of an object's row are below a floor of type t.
pub fn below_floor(
    type_count: u32,
    types: &[u32],
    floor_count: u32,
    floors: &[u32],
    objects: &[u32],
    row: u32,
    t: u32,
) -> bool
    ensures { result ≡ below_floor (types_of type_count types.now) (floors_of floor_count floors.now)
        t (object_row objects.now row).cells }
{
    for cell in 0..meaning::CELLS {
        if cell_below(
            type_count,
            types,
            floor_count,
            floors,
            objects,
            row,
            t,
            cell,
        ) {
            return true;
        }
    }
    false
}
