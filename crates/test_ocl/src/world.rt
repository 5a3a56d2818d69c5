// A register of at most 16 objects as whole sets, made once before any rule is looked at. An object is known by its row, and a set is one bit for
// each row.
ghost use Rattle.std.specs.Prelude.{◌<◌};

use crate::table_rows::row;
use cases::sheet::Sheet;

// The objects under each of 8 types; where each of 8 roles leads from each object, 16 to a role; the cells, 8 to an object, two's complement of 64 bits.
#[derive(Drop)]
pub struct World {
    under: [u64; 8],
    led_to: [u64; 128],
    cells: [u64; 128],
}

pub fn has(set: u64, row: u32) -> bool {
    (set >> (row % 64)) & 1 == 1
}

pub fn with(set: u64, row: u32) -> u64 {
    set | (1 << (row % 64))
}

// A word of a table as a number.
pub fn wide(word: u32) -> u64 {
    i64::from(word.cast_signed()).cast_unsigned()
}

// The parent of a type that has none.
const NO_TYPE: u32 = 0xFFFF_FFFF;

// Whether t is u or comes to u from parent to parent. Eight steps are more than the schemas here have types.
fn is_under(types: &[u32], t: u32, u: u32) -> bool {
    let mut at = t;
    for _ in 0..8 {
        if at == u {
            return true;
        }
        if at == NO_TYPE {
            return false;
        }
        let [parent, _] = row::<2>(types, at);
        at = parent;
    }
    false
}

// The row of an id.
fn row_of(sheet: &Sheet, id: u32) -> Option<u32> {
    (0..sheet.used.objects).find(|r| row::<10>(&sheet.objects, *r)[0] == id)
}

// The place of what belongs to a role and an object, and to an object and a cell.
fn role_place(role: u32, object: u32) -> usize
    ensures { result < 128 }
{
    (role % 8 * 16 + object % 16) as usize
}

fn cell_place(object: u32, cell: u32) -> usize
    ensures { result < 128 }
{
    (object % 16 * 8 + cell % 8) as usize
}

impl World {
    // The world of a register.
    pub fn of(sheet: &Sheet) -> World {
        let mut world = World {
            under: [0; 8],
            led_to: [0; 128],
            cells: [0; 128],
        };
        for r in 0..sheet.used.objects {
            world.add_object(sheet, r);
        }
        for r in 0..sheet.used.links {
            let [relationship, source, target] = row::<3>(&sheet.links, r);
            if let (Some(source), Some(target)) = (row_of(sheet, source), row_of(sheet, target)) {
                world.add_link(relationship, source, target);
            }
        }
        world
    }

    fn add_object(&mut self, sheet: &Sheet, object: u32) {
        let words = row::<10>(&sheet.objects, object);
        for (t, set) in self.under.iter_mut().enumerate() {
            if is_under(&sheet.types, words[1], t as u32) {
                *set = with(*set, object);
            }
        }
        let to = self.cells.iter_mut().skip(cell_place(object, 0));
        for (to, cell) in to.zip(words.iter().skip(2)) {
            *to = wide(*cell);
        }
    }

    // An even role leads from source to target, an odd one back.
    fn add_link(&mut self, relationship: u32, source: u32, target: u32) {
        let there = role_place(relationship % 4 * 2, source);
        self.led_to[there] = with(self.led_to[there], target);
        let back = role_place(relationship % 4 * 2 + 1, target);
        self.led_to[back] = with(self.led_to[back], source);
    }

    // What the world says: the objects under a type, where a role leads, the value of a cell.
    pub fn all(&self, t: u32) -> u64 {
        self.under[(t % 8) as usize]
    }

    pub fn role(&self, object: u32, role: u32) -> u64 {
        self.led_to[role_place(role, object)]
    }

    pub fn cell(&self, object: u32, cell: u32) -> u64 {
        self.cells[cell_place(object, cell)]
    }
}
