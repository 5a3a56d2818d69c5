// Cells that never go below 0: which cells are floored, and refusal 3 of a floor.
ghost use Rattle.std.specs.Prelude.{◌≡◌, ◌&&◌, List, eqb};
ghost use Rattle.meaning.specs.Lists.{ascends};
ghost use Rattle.meaning.specs.Schema.{Relationship, under, floored, floor_key, faulty_floor, floor_fault};
ghost use Rattle.tables.specs.Columns.{floor_row, types_of, floors_of};
ghost use Rattle.tables.specs.Refusals.{found_of};
ghost use Rattle.schema.specs.Previous.{previous_row};

// The type in a floor's row.
pub fn type_of(floors: &[u32], row: u32) -> u32
    ensures { result ≡ (floor_row floors.now row).type }
{
    rows::word(floors, tables::FLOOR_WIDTH, row, 0)
}

// The cell in a floor's row.
pub fn cell_of(floors: &[u32], row: u32) -> u32
    ensures { result ≡ (floor_row floors.now row).cell }
{
    rows::word(floors, tables::FLOOR_WIDTH, row, 1)
}

// Whether a floor's row is of that cell, and of type t or of one above it.
fn floors_cell(type_count: u32, types: &[u32], floors: &[u32], row: u32, t: u32, cell: u32) -> bool
    ensures { result ≡ (under (types_of type_count types.now) t (floor_row floors.now row).type
        && eqb (floor_row floors.now row).cell cell) }
{
    if cell_of(floors, row) == cell {
        crate::under(type_count, types, t, type_of(floors, row))
    } else {
        false
    }
}

// Whether a cell of a type's objects is floored.
pub fn floored(
    type_count: u32,
    types: &[u32],
    floor_count: u32,
    floors: &[u32],
    t: u32,
    cell: u32,
) -> bool
    ensures { result ≡ floored (types_of type_count types.now) (floors_of floor_count floors.now) t cell }
{
    for row in 0..floor_count {
        if floors_cell(type_count, types, floors, row, t, cell) {
            return true;
        }
    }
    false
}

// Whether a floor's row comes after the one before it.
fn floor_ascends(floors: &[u32], row: u32) -> bool
    ensures { result ≡ ascends floor_key (previous_row (floor_row floors.now) row) (floor_row floors.now row) }
{
    if row == 0 {
        return true;
    }
    let key = [type_of(floors, row), cell_of(floors, row)];
    keys::before(floors, tables::FLOOR_WIDTH, row - 1, 2, &key)
}

// Whether a floor's row breaks refusal 3: out of order, twice, or of a cell that its type lacks.
fn faulty_floor(type_count: u32, types: &[u32], floors: &[u32], row: u32) -> bool
    ensures { result ≡ faulty_floor (types_of type_count types.now) row
        (previous_row (floor_row floors.now) row) (floor_row floors.now row) }
{
    if floor_ascends(floors, row) {
        let t = type_of(floors, row);
        cell_of(floors, row) >= crate::cells_of(type_count, types, t)
    } else {
        true
    }
}

// The first faulty floor, if there is one.
pub fn floor_fault(type_count: u32, types: &[u32], floor_count: u32, floors: &[u32]) -> Option<u32>
    ensures { (rs : List Relationship) → result ≡ found_of (floor_fault
        (record { types = types_of type_count types.now; floors = floors_of floor_count floors.now; relationships = rs })) }
{
    for row in 0..floor_count {
        if faulty_floor(type_count, types, floors, row) {
            return Some(row);
        }
    }
    None
}
