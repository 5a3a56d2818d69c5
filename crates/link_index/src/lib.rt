// An index of the links in both directions, by slots: `specs/Slots` has its table. A walk along a role holds a slot and steps to the next one.
#![tactic(auto)]

ghost use Rattle.std.specs.Prelude.{◌≡◌, ℕ, ◌+◌, ◌*◌, ◌<◌, length, get_or};
ghost use Rattle.register.specs.Tables.{ObjectsAscend, LinksAscend, row_at};
ghost use Rattle.link_index.specs.Slots.{laid_link, Indexable, Indexed};

use chains::push;
use register::{columns, search};

// The row of the object of an id; 0 where there is none.
fn row_of(object_count: u32, objects: &[u32], table: &[u16; 4096], id: u32) -> u32
    requires { ObjectsAscend object_count objects.now }
    ensures { result ≡ row_at object_count objects.now id }
{
    match search::quick_row(object_count, objects, table, id) {
        Some(row) => row,
        None => 0,
    }
}

// The two slots of a link, backward from its target and forward from its source, at the heads of their chains.
fn lay_link(link: u32, relationship: u32, source: u32, target: u32, index: &mut [u16])
    requires { (length index.old ≡ 81920) × (link < 4096) × (relationship < 32) × (source < 1024) × (target < 1024) }
    ensures { index.new ≡ laid_link index.old link relationship source target }
{
    let role = relationship * 2;
    push(
        4096 + link,
        source,
        8192,
        16384 + ((role + 1) * 1024 + target),
        index,
    );
    push(link, target, 8192, 16384 + (role * 1024 + source), index);
}

// Indexes the links in a table of zeros: from the last link to the first, the two slots of each become heads of their chains.
pub fn index(
    object_count: u32,
    objects: &[u32],
    link_count: u32,
    links: &[u32],
    index: &mut [u16; 81920],
)
    requires { (ObjectsAscend object_count objects.now)
        × (LinksAscend link_count links.now)
        × (Indexable object_count objects.now link_count links.now)
        × ((k : ℕ) → get_or index.old k 0 ≡ 0) }
    ensures { Indexed object_count objects.now link_count links.now index.new }
{
    let mut table = [0u16; 4096];
    search::guesses(object_count, objects, &mut table);
    for row in (0..link_count).rev() {
        let source = row_of(
            object_count,
            objects,
            &table,
            columns::source_of(links, row),
        );
        let target = row_of(
            object_count,
            objects,
            &table,
            columns::target_of(links, row),
        );
        let relationship = columns::relationship_of(links, row);
        lay_link(row, relationship, source, target, index);
    }
}

// 1 + the first slot of a role from an object's row; 0 where there is none.
pub fn first_slot(index: &[u16; 81920], role: u32, row: u32) -> u32
    requires { (role < 64) × (row < 1024) }
    ensures { result ≡ get_or index.now (16384 + (role * 1024 + row)) 0 }
{
    let at = (16384 + (role * 1024 + row)) as usize;
    rows::wide(index[at])
}

// The far row of a slot.
pub fn far_row(index: &[u16; 81920], slot: u32) -> u32
    requires { slot < 8192 }
    ensures { result ≡ get_or index.now slot 0 }
{
    let at = slot as usize;
    rows::wide(index[at])
}

// 1 + the slot after a slot, of the same role and row; 0 where there is none.
pub fn next_slot(index: &[u16; 81920], slot: u32) -> u32
    requires { slot < 8192 }
    ensures { result ≡ get_or index.now (8192 + slot) 0 }
{
    let at = (8192 + slot) as usize;
    rows::wide(index[at])
}
