// The rows of ids and of links: by binary search, and for ids by a guess that is tested before it is used.
ghost use Rattle.std.specs.Prelude.{◌≡◌, ◌&&◌, ◌<◌, ltb, eqb};
ghost use Rattle.meaning.specs.Register.{same_link};
ghost use Rattle.meaning.specs.Events.{link_of};
ghost use Rattle.tables.specs.Columns.{object_row, link_row};
ghost use Rattle.tables.specs.Refusals.{found_of};
ghost use Rattle.register.specs.Guesses.{guess_place, with_guess, with_guesses};
ghost use Rattle.register.specs.Tables.{ObjectsAscend, LinksAscend, object_place, link_place};

use crate::columns;

// The row of the object of an id.
pub fn object_row(object_count: u32, objects: &[u32], id: u32) -> Option<u32>
    requires { ObjectsAscend object_count objects.now }
    ensures { result ≡ found_of (object_place object_count objects.now id) }
{
    let key = [id];
    let row = keys::place(objects, tables::OBJECT_WIDTH, object_count, 1, &key);
    if row >= object_count {
        return None;
    }
    if columns::id_of(objects, row) == id {
        Some(row)
    } else {
        None
    }
}

// Whether a link's row is a link.
fn is_link(links: &[u32], row: u32, relationship: u32, source: u32, target: u32) -> bool
    ensures { result ≡ same_link (link_of relationship source target) (link_row links.now row) }
{
    if relationship != columns::relationship_of(links, row) {
        return false;
    }
    if source != columns::source_of(links, row) {
        return false;
    }
    target == columns::target_of(links, row)
}

// The row of a link.
pub fn link_row(
    link_count: u32,
    links: &[u32],
    relationship: u32,
    source: u32,
    target: u32,
) -> Option<u32>
    requires { LinksAscend link_count links.now }
    ensures { result ≡ found_of (link_place link_count links.now (link_of relationship source target)) }
{
    let key = [relationship, source, target];
    let row = keys::place(links, tables::LINK_WIDTH, link_count, 3, &key);
    if row >= link_count {
        return None;
    }
    if is_link(links, row, relationship, source, target) {
        Some(row)
    } else {
        None
    }
}

// One of the two places that an id has in a table of guesses, by its last 12 bits and the next.
fn place(id: u32, next: u32) -> usize
    requires { next < 4096 }
    ensures { result ≡ guess_place id next }
{
    ((id % 4096 + next) % 4096) as usize
}

// Puts a row at the first place of its id, or at the second where the first has another row. The row 0 counts as none.
fn put_guess(table: &mut [u16; 4096], id: u32, row: u32)
    ensures { table.new ≡ with_guess table.old id row }
{
    let guess = (row % 65536) as u16;
    let first = place(id, 0);
    if table[first] == 0 {
        table[first] = guess;
    } else {
        table[place(id, 1)] = guess;
    }
}

// The rows that may have an id, by the id: each used row put in its turn. A guess is tested before it is used.
pub fn guesses(object_count: u32, objects: &[u32], table: &mut [u16; 4096])
    ensures { table.new ≡ with_guesses table.old objects.now 0 object_count }
{
    for row in 0..object_count {
        put_guess(table, columns::id_of(objects, row), row);
    }
}

// Whether a row is used and has an id.
fn has_id(object_count: u32, objects: &[u32], row: u32, id: u32) -> bool
    ensures { result ≡ ltb row object_count && eqb (object_row objects.now row).id id }
{
    if object_count <= row {
        return false;
    }
    columns::id_of(objects, row) == id
}

// The row of the object of an id, whatever the guesses are: most often a guessed one, else it is searched for.
pub fn quick_row(object_count: u32, objects: &[u32], table: &[u16; 4096], id: u32) -> Option<u32>
    requires { ObjectsAscend object_count objects.now }
    ensures { result ≡ found_of (object_place object_count objects.now id) }
{
    let first = rows::wide(table[place(id, 0)]);
    if has_id(object_count, objects, first, id) {
        return Some(first);
    }
    let second = rows::wide(table[place(id, 1)]);
    if has_id(object_count, objects, second, id) {
        return Some(second);
    }
    object_row(object_count, objects, id)
}
