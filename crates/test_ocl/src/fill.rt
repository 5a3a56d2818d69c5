// A book and its register, line by line.
use crate::table_rows::put;
use cases::line::numbers;
use cases::sheet::{NO_ROWS, Sheet};
use tables::Counts;

// A book without rules and floors, and a register without objects; its types and relationships stay.
pub fn begin(sheet: &mut Sheet) {
    sheet.rules.fill(0);
    sheet.bodies.fill(0);
    sheet.objects.fill(0);
    sheet.links.fill(0);
    sheet.used = Counts {
        types: 5,
        relationships: 4,
        ..NO_ROWS
    };
}

// A row more; answers its number.
fn one_more(rows: &mut u32) -> u32 {
    let row = *rows;
    *rows = row.saturating_add(1);
    row
}

// What a sign stands for: a digit itself, a small letter its place among them, a letter from A on -5 and more, M and N the greatest and the
// least value.
fn value(b: u8) -> u32 {
    match b {
        b'0'..=b'9' => u32::from(b - b'0'),
        b'a'..=b'z' => u32::from(b - b'a'),
        b'M' => 0x7FFF_FFFF,
        b'N' => 0x8000_0000,
        _ => u32::from(b).wrapping_sub(70),
    }
}

// The words of a body: a small letter, an operator's code, begins a row of four, and what follows are its fields. Answers how many rows there are.
fn put_body(words: &mut [u32; 256], body: &str) -> u32 {
    let mut rows = 0u32;
    let mut at = 0usize;
    for b in body.bytes() {
        if b.is_ascii_lowercase() {
            at = (rows as usize).saturating_mul(4);
            rows = rows.saturating_add(1);
        }
        if let Some(word) = words.get_mut(at) {
            *word = value(b);
        }
        at = at.saturating_add(1);
    }
    rows
}

// `rule T BODY`
pub fn rule(line: &str, sheet: &mut Sheet) {
    let [context] = numbers::<1>(line);
    let body = line.split_whitespace().nth(2).unwrap_or("");
    let row = one_more(&mut sheet.used.rules);
    let mut words = [0u32; 256];
    let rows = put_body(&mut words, body);
    put(&mut sheet.bodies, row, words);
    put(&mut sheet.rules, row, [context, rows]);
}

// `floor T K`
pub fn floor(line: &str, sheet: &mut Sheet) {
    let row = one_more(&mut sheet.used.floors);
    put(&mut sheet.floors, row, numbers::<2>(line));
}

// `object ID T CELLS`
pub fn object(line: &str, sheet: &mut Sheet) {
    let [id, kind] = numbers::<2>(line);
    let cells = line.split_whitespace().nth(3).unwrap_or("");
    let mut words = [id, kind, 0, 0, 0, 0, 0, 0, 0, 0];
    for (cell, b) in words.iter_mut().skip(2).zip(cells.bytes()) {
        *cell = value(b);
    }
    let row = one_more(&mut sheet.used.objects);
    put(&mut sheet.objects, row, words);
}

// `link R S T`
pub fn link(line: &str, sheet: &mut Sheet) {
    let row = one_more(&mut sheet.used.links);
    put(&mut sheet.links, row, numbers::<3>(line));
}
