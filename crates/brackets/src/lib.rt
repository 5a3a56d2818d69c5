// The body of a rule by the tokens of its line: whether it is one whole form, and its rows.
#![tactic(auto)]

ghost use Rattle.std.specs.Prelude.{◌≡◌, ℕ, ◌+◌, ◌*◌, ◌≤◌, length, drop};
ghost use Rattle.text.specs.Bodies.{Written, rows_of};
ghost use Rattle.text.specs.Texts.{max_text};
ghost use Rattle.brackets.specs.Steps.{opened_by, filled_by, lacking_after, ended_at, body_at};
ghost use Rattle.tables.specs.Layouts.{body_words};
ghost use Rattle.brackets.specs.Whole.{WholeBody, rows_put};

use text::{DASH, FIRST_OPERATOR, NAME_COUNT};
use tokens::{Found, token};

// For each operator, by its code: four times how many parts it has, and how many fields.
const LACKS: [u8; 23] = [
    8, // le
    8, // lt
    8, // eq
    8, // ne
    8, // ge
    8, // gt
    4, // not
    8, // and
    8, // or
    8, // xor
    8, // implies
    8, // forall
    8, // exists
    2, // kind
    1, // num
    2, // cell
    4, // size
    5, // sum
    8, // add
    8, // sub
    2, // role
    1, // all
    8, // select
];

// What a form of this name lacks when it is opened in one that lacks so much; none where it may not be.
fn opened(lacks: u8, name: u32) -> Option<u8>
    ensures { result ≡ opened_by lacks name }
{
    if lacks < 4 || name < FIRST_OPERATOR || NAME_COUNT <= name {
        return None;
    }
    let code = (name - FIRST_OPERATOR) as usize;
    Some(LACKS[code])
}

// What is still lacking after a field; none where there may be no such field.
fn filled(lacks: u8, value: u64) -> Option<u8>
    ensures { result ≡ filled_by lacks value }
{
    if lacks < 1 || 3 < lacks || DASH <= value {
        return None;
    }
    Some(lacks - 1)
}

// What the innermost open form lacks after a token; none where the token may not stand there.
fn lacking(lacks: u8, found: Found) -> Option<u8>
    ensures { result ≡ lacking_after lacks found }
{
    match found {
        Found::Begin { name, .. } => opened(lacks, name),
        Found::Item { value, .. } => filled(lacks, value),
        Found::End { .. } => {
            if lacks < 1 {
                return Some(0);
            }
            None
        }
    }
}

// A body whose last bracket is closed: nothing may follow.
fn ended(line: &[u8], at: usize, forms: u32) -> Option<u32>
    ensures { result ≡ ended_at (drop at line.now) forms }
{
    if at < line.len() {
        return None;
    }
    Some(forms)
}

// How many forms the body has whose text runs from a place to the end of the line. The rule's own bracket, of one part, is open there.
// An inner bracket takes four bytes at least, so no more are open at once than `outer` holds.
pub fn body(line: &[u8], at: usize) -> Option<u32>
    requires { length line.now ≤ max_text }
    ensures { result ≡ body_at (drop at line.now) }
{
    let mut outer = [0u8; 16384];
    let mut depth: usize = 0;
    let mut lacks: u8 = 4;
    let mut forms: u32 = 0;
    let mut i = at;
    loop {
        let found = token(line, i)?;
        let after = lacking(lacks, found)?;
        match found {
            Found::Begin { next, .. } => {
                outer[depth] = lacks - 4;
                depth += 1;
                lacks = after;
                forms += 1;
                i = next;
            }
            Found::Item { next, .. } => {
                lacks = after;
                i = next;
            }
            Found::End { next } => {
                if depth < 1 {
                    return ended(line, next, forms);
                }
                depth -= 1;
                lacks = outer[depth];
                i = next;
            }
        }
    }
}

// Puts the rows of the body at a place at the start of a table, each when its form is closed: after those of its parts.
// Fields stand after parts, so of the open forms only the innermost has any; of the others the operators' codes are enough.
fn put_rows(line: &[u8], at: usize, table: &mut [u32])
    requires { ((t : ℕ) × (w : Written) × WholeBody (drop at line.now) t w) × (body_words ≤ length table.old) }
    ensures { (t : ℕ) (w : Written) → WholeBody (drop at line.now) t w → table.new ≡ rows_put table.old 0 (rows_of w) }
{
    let mut codes = [0u32; 64];
    let mut depth: usize = 0;
    let mut words = [0u32; 4];
    let mut column: usize = 1;
    let mut row: u32 = 0;
    let mut i = at;
    while let Some(found) = token(line, i) {
        match found {
            Found::Begin { name, next } => {
                codes[depth] = name - FIRST_OPERATOR;
                depth += 1;
                i = next;
            }
            Found::Item { value, next } => {
                words[column] = value as u32;
                column += 1;
                i = next;
            }
            Found::End { next } => {
                if depth < 1 {
                    return;
                }
                depth -= 1;
                words[0] = codes[depth];
                rows::write_row(table, tables::BODY_WIDTH, row, &words);
                words = [0u32; 4];
                column = 1;
                row += 1;
                i = next;
            }
        }
    }
}

// Puts the rows of a rule's body, whose text runs from a place to the end of the line, in their place in the table of bodies.
// The line was found good before, so no token is refused here.
pub fn write_body(line: &[u8], at: usize, bodies: &mut [u32], rule: u32)
    requires { ((t : ℕ) × (w : Written) × WholeBody (drop at line.now) t w) × ((rule + 1) * body_words ≤ length bodies.old) }
    ensures { (t : ℕ) (w : Written) → WholeBody (drop at line.now) t w → bodies.new ≡ rows_put bodies.old (rule * body_words) (rows_of w) }
{
    let start = (rule as usize) * 256;
    put_rows(line, at, &mut bodies[start..]);
}
