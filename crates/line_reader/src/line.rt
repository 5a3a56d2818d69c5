// One line of the text as a row of a table.
ghost use Rattle.std.specs.Prelude.{◌≡◌, List, ℕ, ◌≤◌, length, drop, Some};
ghost use Rattle.std.proofs.Math.Option.{bind};
ghost use Rattle.text.specs.Tokens.{dash, token_in, tokens_in, bracket_in};
ghost use Rattle.text.specs.Names.{rule_name};
ghost use Rattle.text.specs.Texts.{max_text};
ghost use Rattle.text.specs.Entries.{Entry, count_of, parent_word, rule_in, inside_in, entry_in};
ghost use Rattle.tokens.specs.Tokens.{found_at};
ghost use Rattle.line_reader.specs.Rows.{words_held, row_held, Follows, item_of, next_after, body_place, type_held, relationship_held, object_held, plain_held, event_held, flat_held};

use tables::{FLOOR_WIDTH, LINK_WIDTH};
use text::{
    DASH, EVENT_SECTION, FLOOR_SECTION, LINK_SECTION, OBJECT_SECTION, RELATIONSHIP_SECTION,
    RULE_SECTION, TYPE_SECTION,
};
use tokens::{Found, ItemsFound};

// A row: its section and its words, zeros after them.
#[derive(Clone, Copy)]
pub struct Row {
    pub section: u32,
    pub words: [u32; 10],
}

// How many fields an event of each kind has.
const FIELDS: [u32; 7] = [2, 1, 3, 3, 3, 2, 2];

// The values as words, where each is one.
fn words_of(values: [u64; 10]) -> Option<[u32; 10]>
    ensures { result ≡ words_held values }
{
    let mut words = [0u32; 10];
    for i in 0..10 {
        let v = values[i];
        if DASH <= v {
            return None;
        }
        words[i] = v as u32;
    }
    Some(words)
}

// The word of a parent, or of none where it is `-`.
fn parent_word(v: u64) -> u32
    requires { v ≤ dash }
    ensures { result ≡ parent_word v }
{
    if v == DASH {
        return 4294967295;
    }
    v as u32
}

// The line of a type: its number, a parent or `-`, its cells.
fn type_row(items: ItemsFound, types: u32) -> Option<Row>
    ensures { result ≡ type_held items types }
{
    let v = items.values;
    if items.count != 3 || v[0] != types as u64 || DASH <= v[2] {
        return None;
    }
    if 2147483648 <= v[1] && v[1] != DASH {
        return None;
    }
    let p = parent_word(v[1]);
    let cells = v[2] as u32;
    Some(Row {
        section: TYPE_SECTION,
        words: [p, cells, 0, 0, 0, 0, 0, 0, 0, 0],
    })
}

// The line of a relationship: its number, its source and its target type.
fn relationship_row(items: ItemsFound, relationships: u32) -> Option<Row>
    ensures { result ≡ relationship_held items relationships }
{
    if items.count != 3 || items.values[0] != relationships as u64 {
        return None;
    }
    let v = words_of(items.values)?;
    Some(Row {
        section: RELATIONSHIP_SECTION,
        words: [v[1], v[2], 0, 0, 0, 0, 0, 0, 0, 0],
    })
}

// The line of a floor or a link: its items are its row's words.
fn plain_row(items: ItemsFound, section: u32, width: u32) -> Option<Row>
    ensures { result ≡ plain_held items section width }
{
    if items.count != width {
        return None;
    }
    let words = words_of(items.values)?;
    Some(Row { section, words })
}

// The line of an object: id, type, and as many values as the type has cells.
fn object_row(items: ItemsFound, types: u32, cells: &[u32; 32]) -> Option<Row>
    requires { types ≤ 32 }
    ensures { result ≡ object_held items types cells.now }
{
    let words = words_of(items.values)?;
    let t = words[1];
    if items.count < 2 || types <= t {
        return None;
    }
    let size = cells[t as usize];
    if 8 < size || items.count != 2 + size {
        return None;
    }
    Some(Row {
        section: OBJECT_SECTION,
        words,
    })
}

// The line of an event: its fields.
fn event_row(items: ItemsFound, kind: u32) -> Option<Row>
    ensures { result ≡ event_held items kind }
{
    if 7 <= kind || items.count != FIELDS[kind as usize] {
        return None;
    }
    let v = words_of(items.values)?;
    Some(Row {
        section: EVENT_SECTION,
        words: [kind, v[0], v[1], v[2], 0, 0, 0, 0, 0, 0],
    })
}

// A line without an inner bracket, by its name.
fn flat_row(
    items: ItemsFound,
    name: u32,
    types: u32,
    relationships: u32,
    cells: &[u32; 32],
) -> Option<Row>
    requires { types ≤ 32 }
    ensures { result ≡ flat_held items name types relationships cells.now }
{
    match name {
        TYPE_SECTION => type_row(items, types),
        FLOOR_SECTION => plain_row(items, FLOOR_SECTION, FLOOR_WIDTH),
        RELATIONSHIP_SECTION => relationship_row(items, relationships),
        RULE_SECTION => None,
        OBJECT_SECTION => object_row(items, types, cells),
        LINK_SECTION => plain_row(items, LINK_SECTION, LINK_WIDTH),
        _ => event_row(items, name - EVENT_SECTION),
    }
}

// An item, and the place after it.
#[derive(Clone, Copy)]
struct ItemAt {
    value: u64,
    next: usize,
}

// The item at a place, if there is one.
fn item_at(line: &[u8], at: usize) -> Option<ItemAt>
    ensures { result ≡ item_of (found_at at (token_in (drop at line.now))) }
{
    match tokens::token(line, at)? {
        Found::Item { value, next } => Some(ItemAt { value, next }),
        Found::Begin { .. } => None,
        Found::End { .. } => None,
    }
}

// The line of a rule: its number, its context type and its body, from the place after its name on.
fn rule_row(line: &[u8], at: usize, rules: u32) -> Option<Row>
    requires { length line.now ≤ max_text }
    ensures { (before : List Entry) → rules ≡ count_of rule_name before → result ≡ row_held (bind (tokens_in (drop at line.now)) (rule_in before)) }
{
    let number = item_at(line, at)?;
    let context = item_at(line, number.next)?;
    let forms = brackets::body(line, context.next)?;
    if number.value != rules as u64 || DASH <= context.value {
        return None;
    }
    let t = context.value as u32;
    Some(Row {
        section: RULE_SECTION,
        words: [t, forms, 0, 0, 0, 0, 0, 0, 0, 0],
    })
}

// What a line says by itself, after so many types, relationships and rules.
fn inside_row(
    line: &[u8],
    types: u32,
    relationships: u32,
    rules: u32,
    cells: &[u32; 32],
) -> Option<Row>
    requires { (length line.now ≤ max_text) × (types ≤ 32) }
    ensures { (before : List Entry) (section : ℕ) → Follows before types relationships rules cells.now section → result ≡ row_held (bind (bracket_in line.now) (inside_in before)) }
{
    if line.is_empty() || line[0] != b'(' {
        return None;
    }
    let name = tokens::name(line, 1);
    let place = name.place?;
    if place == RULE_SECTION {
        return rule_row(line, name.end, rules);
    }
    let items = tokens::items(line, name.end)?;
    flat_row(items, place, types, relationships, cells)
}

// The row of a line, after the lines before it: so many types, relationships and rules, the types' cells, and the last line's section.
// It is not of an earlier section than that.
pub fn read_line(
    line: &[u8],
    types: u32,
    relationships: u32,
    rules: u32,
    cells: &[u32; 32],
    section: u32,
) -> Option<Row>
    requires { (length line.now ≤ max_text) × (types ≤ 32) }
    ensures { (before : List Entry) → Follows before types relationships rules cells.now section → result ≡ row_held (entry_in before line.now) }
{
    let row = inside_row(line, types, relationships, rules, cells)?;
    if row.section < section {
        return None;
    }
    Some(row)
}

// The place after the item at a place, 0 where there is none.
fn after_item(line: &[u8], at: usize) -> usize
    ensures { result ≡ next_after line.now at }
{
    match item_at(line, at) {
        Some(item) => item.next,
        None => 0,
    }
}

// Where the body of a rule's line starts: after its name, its number and its context.
pub fn body_place(line: &[u8]) -> usize
    ensures { result ≡ body_place line.now }
{
    let name = tokens::name(line, 1);
    let number = after_item(line, name.end);
    after_item(line, number)
}
