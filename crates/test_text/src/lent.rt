// The library's calls on the tables of a case, as far as they are lent.
use cases::sheet::{BASES, Sheet, TABLES};
use meaning::MAX_FORMS;
use tables::{
    BODY_WIDTH, EVENT_WIDTH, FLOOR_WIDTH, LINK_WIDTH, OBJECT_WIDTH, RELATIONSHIP_WIDTH, RULE_WIDTH,
    Refusal, TYPE_WIDTH,
};

// Writes the tables into lent bytes.
pub fn write(sheet: &Sheet, out: &mut [u8]) -> Result<u32, Refusal> {
    writer::write(sheet.used, &sheet.lent_sheet(), out)
}

// How many words past the used rows are not 0.
pub fn past(sheet: &Sheet) -> usize {
    let n = sheet.used;
    let used = [
        (n.types, TYPE_WIDTH),
        (n.floors, FLOOR_WIDTH),
        (n.relationships, RELATIONSHIP_WIDTH),
        (n.rules, RULE_WIDTH),
        (n.rules, BODY_WIDTH * MAX_FORMS),
        (n.objects, OBJECT_WIDTH),
        (n.links, LINK_WIDTH),
        (n.events, EVENT_WIDTH),
    ];
    let mut wrong = 0usize;
    for (table, (rows, width)) in sheet.lent().iter().zip(used) {
        let words = (rows as usize).saturating_mul(width as usize);
        wrong = wrong.saturating_add(table.iter().skip(words).filter(|w| **w != 0).count());
    }
    wrong
}

// The mark at a place; no two neighbours have the same, and none is 0.
fn mark_at(i: usize) -> u32 {
    7 + (i % 1009) as u32
}

fn mark_table(table: &mut [u32], base: usize) {
    for (i, word) in table.iter_mut().enumerate() {
        *word = mark_at(base.saturating_add(i));
    }
}

pub fn mark(sheet: &mut Sheet) {
    for (name, base) in TABLES.iter().zip(BASES) {
        if let Some(table) = sheet.table(name) {
            mark_table(table, base);
        }
    }
}

fn copy_table(from: &[u32], to: &mut [u32]) {
    if from.len() == to.len() {
        to.copy_from_slice(from);
    }
}

// The words of a sheet, in the tables of one as large.
pub fn take_over(from: &Sheet, to: &mut Sheet) {
    for (name, words) in TABLES.iter().zip(from.tables()) {
        if let Some(table) = to.table(name) {
            copy_table(words, table);
        }
    }
}

// Every word becomes the same.
pub fn fill(sheet: &mut Sheet, word: u32) {
    for name in TABLES {
        if let Some(table) = sheet.table(name) {
            table.fill(word);
        }
    }
}

// How many words of two sheets differ.
pub fn differing(a: &Sheet, b: &Sheet) -> usize {
    let mut n = 0usize;
    for (a, b) in a.tables().iter().zip(b.tables()) {
        if *a != b {
            n = n.saturating_add(a.iter().zip(b).filter(|(x, y)| *x != *y).count());
        }
    }
    n
}
