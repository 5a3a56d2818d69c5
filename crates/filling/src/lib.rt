// Lines put into the tables that they are rows of.
#![tactic(auto)]

ghost use Rattle.std.specs.Prelude.{◌≡◌, cond, List, [], ℕ, ◌+◌, ◌*◌, ◌≤◌, eqb, length, get_or, take, drop};
ghost use Rattle.rows.specs.Rows.{with_row};
ghost use Rattle.tables.specs.Layouts.{sheet_of, body_words, lines_lent};
ghost use Rattle.text.specs.Names.{rule_name};
ghost use Rattle.text.specs.Bodies.{Written, rows_of};
ghost use Rattle.text.specs.Entries.{Entry};
ghost use Rattle.text.specs.Texts.{max_text, taken, reading, filled};
ghost use Rattle.brackets.specs.Whole.{WholeBody, rows_put};
ghost use Rattle.line_reader.specs.Rows.{body_place};
ghost use Rattle.filling.specs.Fills.{LinePut, sheet_with};

use line_reader::line::{Row, body_place, read_line};
use reading::look::{more_cells, more_rows};
use tables::{
    EVENT_WIDTH, FLOOR_WIDTH, LINK_WIDTH, OBJECT_WIDTH, RELATIONSHIP_WIDTH, RULE_WIDTH, TYPE_WIDTH,
};
use text::{
    EVENT_SECTION, FLOOR_SECTION, LINK_SECTION, OBJECT_SECTION, RELATIONSHIP_SECTION, RULE_SECTION,
    TYPE_SECTION,
};

// A table without a used row.
fn clear(table: &mut [u32])
    ensures { table.new ≡ filled (length table.old) [] }
{
    rows::clear_past(table, 1, 0);
}

// All tables without a used row.
pub fn clear_all(
    types: &mut [u32],
    floors: &mut [u32],
    relationships: &mut [u32],
    rules: &mut [u32],
    bodies: &mut [u32],
    objects: &mut [u32],
    links: &mut [u32],
    events: &mut [u32],
)
    ensures { sheet_of types.new floors.new relationships.new rules.new bodies.new objects.new links.new events.new
        ≡ sheet_with [] (sheet_of types.old floors.old relationships.old rules.old bodies.old objects.old links.old events.old) }
{
    clear(types);
    clear(floors);
    clear(relationships);
    clear(rules);
    clear(bodies);
    clear(objects);
    clear(links);
    clear(events);
}

// Puts a row's words in their place, where the row is of the table's section.
fn put_in(table: &mut [u32], wanted: u32, width: u32, section: u32, row: u32, words: &[u32])
    requires { width ≤ length words.now }
    ensures { table.new ≡ cond (eqb section wanted) (with_row table.old width row (take width words.now)) table.old }
{
    if section == wanted {
        rows::write_row(table, width, row, &words[..width as usize]);
    }
}

// Puts a body's rows in their place, where the line is a rule's.
fn put_body(line: &[u8], section: u32, rule: u32, bodies: &mut [u32])
    requires { (section ≡ rule_name → ((t : ℕ) × (w : Written) × WholeBody (drop (body_place line.now) line.now) t w)) × (section ≡ rule_name → (rule + 1) * body_words ≤ length bodies.old) }
    ensures { ((t : ℕ) (w : Written) → section ≡ rule_name → WholeBody (drop (body_place line.now) line.now) t w → bodies.new ≡ rows_put bodies.old (rule * body_words) (rows_of w)) × ((section ≡ rule_name → ⊥) → bodies.new ≡ bodies.old) }
{
    if section == RULE_SECTION {
        brackets::write_body(line, body_place(line), bodies, rule);
    }
}

// Puts a line's row in its place, after so many rows of each section.
fn put_line(
    line: &[u8],
    row: Row,
    counts: &[u32; 7],
    types: &mut [u32],
    floors: &mut [u32],
    relationships: &mut [u32],
    rules: &mut [u32],
    bodies: &mut [u32],
    objects: &mut [u32],
    links: &mut [u32],
    events: &mut [u32],
)
    requires { (row.section ≡ rule_name → ((t : ℕ) × (w : Written) × WholeBody (drop (body_place line.now) line.now) t w)) × (row.section ≡ rule_name → (get_or counts.now rule_name 0 + 1) * body_words ≤ length bodies.old) }
    ensures { LinePut line.now row counts.now
        (sheet_of types.old floors.old relationships.old rules.old bodies.old objects.old links.old events.old)
        (sheet_of types.new floors.new relationships.new rules.new bodies.new objects.new links.new events.new) }
{
    let section = row.section;
    let words = &row.words[..];
    put_in(types, TYPE_SECTION, TYPE_WIDTH, section, counts[0], words);
    put_in(
        floors,
        FLOOR_SECTION,
        FLOOR_WIDTH,
        section,
        counts[1],
        words,
    );
    put_in(
        relationships,
        RELATIONSHIP_SECTION,
        RELATIONSHIP_WIDTH,
        section,
        counts[2],
        words,
    );
    put_in(rules, RULE_SECTION, RULE_WIDTH, section, counts[3], words);
    put_body(line, section, counts[3], bodies);
    put_in(
        objects,
        OBJECT_SECTION,
        OBJECT_WIDTH,
        section,
        counts[4],
        words,
    );
    put_in(links, LINK_SECTION, LINK_WIDTH, section, counts[5], words);
    put_in(
        events,
        EVENT_SECTION,
        EVENT_WIDTH,
        section,
        counts[6],
        words,
    );
}

// Puts every row of a text in its place; the tables are clear. The text is taken, so each of its lines is a row.
pub fn put_lines(
    text: &[u8],
    types: &mut [u32],
    floors: &mut [u32],
    relationships: &mut [u32],
    rules: &mut [u32],
    bodies: &mut [u32],
    objects: &mut [u32],
    links: &mut [u32],
    events: &mut [u32],
)
    requires { let s = sheet_of types.old floors.old relationships.old rules.old bodies.old objects.old links.old events.old in (length text.now ≤ max_text) × (s ≡ sheet_with [] s) × ((es : List Entry) × (reading (lines_lent s) text.now ≡ taken es)) }
    ensures { let before = sheet_of types.old floors.old relationships.old rules.old bodies.old objects.old links.old events.old in
        let after = sheet_of types.new floors.new relationships.new rules.new bodies.new objects.new links.new events.new in
        (es : List Entry) → reading (lines_lent before) text.now ≡ taken es → after ≡ sheet_with es before }
{
    let mut counts = [0u32; 7];
    let mut cells = [0u32; 32];
    let mut section: u32 = 0;
    let mut at: usize = 0;
    while at < text.len() {
        let line = lexical::line(text, at);
        let row = read_line(line, counts[0], counts[2], counts[3], &cells, section).unwrap();
        section = row.section;
        put_line(
            line,
            row,
            &counts,
            types,
            floors,
            relationships,
            rules,
            bodies,
            objects,
            links,
            events,
        );
        cells = more_cells(&cells, counts[0], section, row.words[1]);
        counts = more_rows(&counts, section);
        at = lexical::line_end(text, at) + 1;
    }
}
