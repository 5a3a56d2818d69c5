// The lines of lent tables, each put at a place.
ghost use Rattle.std.specs.Prelude.{[], ◌∷◌, ◌+◌, ◌*◌, ◌≤◌, ◌<◌, T, length, take};
ghost use Rattle.meaning.specs.Limits.{cell_count, max_forms};
ghost use Rattle.rows.specs.Rows.{word_at};
ghost use Rattle.text.specs.Names.{name_count};
ghost use Rattle.tables.specs.Bodies.{ending, whole_body};
ghost use Rattle.body_rows.specs.Marks.{body_of, Starts};
ghost use Rattle.line_writer.specs.Put.{Put};
ghost use Rattle.line_writer.specs.Lines.{spell_closing, spell_form, cells_for, type_line, relationship_line, rule_line, object_line, plain_line, event_line};

use crate::pieces::{end_line, number, open, open_inner, parent, row_line};
use body_rows::body::{FIRST, NONE, SECOND, field, shape};
use text::{
    EVENT_SECTION, FIRST_OPERATOR, OBJECT_SECTION, RELATIONSHIP_SECTION, RULE_SECTION, TYPE_SECTION,
};

// The column of a shape that says how many fields its operator has.
const FIELDS: u32 = 3;

// How many fields an event has, by its kind.
const EVENT_FIELDS: [usize; 7] = [2, 1, 3, 3, 3, 2, 2];

// The line of a type.
pub fn type_line(out: &mut [u8], at: usize, types: &[u32], row: u32) -> usize
    ensures { Put out.old at (type_line types.now row) out.new result }
{
    let a = open(&mut *out, at, TYPE_SECTION);
    let b = number(&mut *out, a, row);
    let c = parent(&mut *out, b, rows::word(types, tables::TYPE_WIDTH, row, 0));
    let d = number(&mut *out, c, rows::word(types, tables::TYPE_WIDTH, row, 1));
    end_line(out, d)
}

// The line of a relationship.
pub fn relationship_line(out: &mut [u8], at: usize, relationships: &[u32], row: u32) -> usize
    ensures { Put out.old at (relationship_line relationships.now row) out.new result }
{
    let source = rows::word(relationships, tables::RELATIONSHIP_WIDTH, row, 0);
    let target = rows::word(relationships, tables::RELATIONSHIP_WIDTH, row, 1);
    let items = [row, source, target];
    row_line(out, at, RELATIONSHIP_SECTION, &items, 0, 3)
}

// The line of an object, with as many cells as its type has.
pub fn object_line(out: &mut [u8], at: usize, types: &[u32], objects: &[u32], row: u32) -> usize
    requires { (cells_for types.now objects.now row ≤ cell_count) × (row * 10 + 10 ≤ length objects.now) }
    ensures { Put out.old at (object_line types.now objects.now row) out.new result }
{
    let t = rows::word(objects, tables::OBJECT_WIDTH, row, 1);
    let cells = rows::word(types, tables::TYPE_WIDTH, t, 1) as usize;
    let from = (row as usize) * 10;
    row_line(out, at, OBJECT_SECTION, objects, from, 2 + cells)
}

// The line of a floor or a link: the words of its row.
pub fn plain_line(out: &mut [u8], at: usize, name: u32, t: &[u32], width: u32, row: u32) -> usize
    requires { (name < name_count) × (row * width + width ≤ length t.now) }
    ensures { Put out.old at (plain_line name t.now width row) out.new result }
{
    let from = (row as usize) * (width as usize);
    row_line(out, at, name, t, from, width as usize)
}

// The line of an event, by its kind.
pub fn event_line(out: &mut [u8], at: usize, events: &[u32], row: u32) -> usize
    requires { (word_at events.now 4 row 0 < 7) × (row * 4 + 4 ≤ length events.now) }
    ensures { Put out.old at (event_line events.now row) out.new result }
{
    let kind = rows::word(events, tables::EVENT_WIDTH, row, 0);
    let k = kind as usize;
    let fields = EVENT_FIELDS[k];
    let from = (row as usize) * 4 + 1;
    row_line(out, at, EVENT_SECTION + kind, events, from, fields)
}

// The fields of a body's row, and the closed bracket of its form.
fn close(out: &mut [u8], at: usize, bodies: &[u32], rule: u32, row: u32, fields: u32) -> usize
    requires { (row < 64) × (fields ≤ 2) }
    ensures { Put out.old at (spell_closing (take fields (word_at bodies.now 4 (rule * max_forms + row) 1 ∷ word_at bodies.now 4 (rule * max_forms + row) 2 ∷ []))) out.new result }
{
    if fields == 0 {
        return lexical::write_bytes(out, at, b")");
    }
    let a = number(&mut *out, at, field(bodies, rule, row, 1));
    if fields == 1 {
        return lexical::write_bytes(out, a, b")");
    }
    let b = number(&mut *out, a, field(bodies, rule, row, 2));
    lexical::write_bytes(out, b, b")")
}

// The form that ends before row `end` of a rule's body: its name, its parts, and its fields.
fn form(out: &mut [u8], at: usize, bodies: &[u32], starts: &[u32; 65], rule: u32, end: u32) -> usize
    requires { (Starts (body_of bodies.now rule) starts.now end) × T (ending (body_of bodies.now rule) end).sound }
    ensures { Put out.old at (spell_form (body_of bodies.now rule) end) out.new result }
{
    let row = end - 1;
    let code = field(bodies, rule, row, 0);
    let fields = shape(code, FIELDS);
    let a = open_inner(&mut *out, at, FIRST_OPERATOR + code);
    if shape(code, SECOND) == NONE {
        return close(out, a, bodies, rule, row, fields);
    }
    if shape(code, FIRST) == NONE {
        let b = form(&mut *out, a, bodies, starts, rule, row);
        return close(out, b, bodies, rule, row, fields);
    }
    let index = row as usize;
    let b = form(&mut *out, a, bodies, starts, rule, starts[index]);
    let c = form(&mut *out, b, bodies, starts, rule, row);
    close(out, c, bodies, rule, row, fields)
}

// The line of a rule.
pub fn rule_line(out: &mut [u8], at: usize, rules: &[u32], bodies: &[u32], row: u32) -> usize
    requires { T (whole_body (body_of bodies.now row) (word_at rules.now 2 row 1)) }
    ensures { Put out.old at (rule_line rules.now bodies.now row) out.new result }
{
    let size = rows::word(rules, tables::RULE_WIDTH, row, 1);
    let spans = body_rows::body::scan(bodies, row, size);
    let starts = spans.starts;
    let a = open(&mut *out, at, RULE_SECTION);
    let b = number(&mut *out, a, row);
    let c = number(&mut *out, b, rows::word(rules, tables::RULE_WIDTH, row, 0));
    let d = form(&mut *out, c, bodies, &starts, row, size);
    end_line(out, d)
}
