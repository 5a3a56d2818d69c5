// Variables and members by the rows of their objects, and the steps of a walk over members.
#![tactic(auto)]

ghost use Rattle.std.specs.Prelude.{◌≡◌, ◌<◌, ◌≤◌, get_or};
ghost use Rattle.tables.specs.Columns.{types_of};
ghost use Rattle.walks.specs.Values.{cell_in, weight_of};
ghost use Rattle.walks.specs.Walks.{far_step, instances_from, Stepped, Anywhere};

// A member of a collection that is walked over: its object's row, and the word at which the walk goes on.
#[derive(Clone, Copy)]
pub struct Member {
    pub row: u32,
    pub next: u32,
}

// The row of the object that a variable stands for.
pub fn variable(vars: &[u32; 64], v: u32) -> u32
    requires { v < 64 }
    ensures { result ≡ get_or vars.now v 0 }
{
    let at = v as usize;
    vars[at]
}

// Where the form that ends before a row of a body starts.
pub fn start_of(starts: &[u32; 65], row: u32) -> u32
    requires { row < 65 }
    ensures { result ≡ get_or starts.now row 0 }
{
    let at = row as usize;
    starts[at]
}

// The value of a cell of an object's row.
pub fn cell_value(objects: &[u32], row: u32, cell: u32) -> i64
    ensures { result ≡ cell_in objects.now row cell }
{
    signed::from_word(register::cell_of(objects, row, cell))
}

// What a member adds to a size, or to a sum of cells.
pub fn weight(objects: &[u32], code: u32, cell: u32, row: u32) -> i64
    ensures { result ≡ weight_of code objects.now cell row }
{
    if code == 16 {
        1
    } else {
        cell_value(objects, row, cell)
    }
}

// The member at the slot to which a walk along a role leads, if there is one.
pub fn next_far(index: &[u16; 81920], word: u32) -> Option<Member>
    requires { word ≤ 8192 }
    ensures { result ≡ far_step index.now word }
{
    if word == 0 {
        return None;
    }
    let slot = word - 1;
    Some(Member {
        row: link_index::far_row(index, slot),
        next: link_index::next_slot(index, slot),
    })
}

// The first object under t from a row on, if there is one.
pub fn next_instance(
    type_count: u32,
    types: &[u32],
    object_count: u32,
    objects: &[u32],
    t: u32,
    from: u32,
) -> Option<Member>
    ensures { Stepped objects.now object_count (instances_from (types_of type_count types.now) objects.now object_count t) Anywhere from result }
{
    for row in from..object_count {
        if schema::under(type_count, types, register::type_of(objects, row), t) {
            return Some(Member { row, next: row + 1 });
        }
    }
    None
}
