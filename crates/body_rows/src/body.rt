// A body's rows as forms: where the form that ends before each row starts, and of which sort it is.
ghost use Rattle.std.specs.Prelude.{◌≡◌, ℕ, suc, ◌+◌, ◌*◌, ◌^◌, ◌<◌, ◌≤◌, get_or};
ghost use Rattle.std.proofs.Math.Option.{some};
ghost use Rattle.meaning.specs.Limits.{max_forms};
ghost use Rattle.rows.specs.Rows.{word_at};
ghost use Rattle.tables.specs.Codes.{Operator, operator_of, shape_of};
ghost use Rattle.tables.specs.Bodies.{fields_fit, ending, first_part, second_part};
ghost use Rattle.body_rows.specs.Marks.{body_of, mark, serves, shape_word, Starts};

// The sorts of forms: 0 truth, 1 number, 2 collection. NONE is no form, and no part.
pub const TRUTH: u32 = 0;

pub const COLLECTION: u32 = 2;

pub const NONE: u32 = 3;

// For each operator, by its code: the sort that it makes, the sorts of its first and its second part (an operator of one part has
// the second), and how many fields it uses.
const SHAPES: [[u8; 4]; 23] = [
    [0, 1, 1, 0], // le
    [0, 1, 1, 0], // lt
    [0, 1, 1, 0], // eq
    [0, 1, 1, 0], // ne
    [0, 1, 1, 0], // ge
    [0, 1, 1, 0], // gt
    [0, 3, 0, 0], // not
    [0, 0, 0, 0], // and
    [0, 0, 0, 0], // or
    [0, 0, 0, 0], // xor
    [0, 0, 0, 0], // implies
    [0, 2, 0, 0], // forall
    [0, 2, 0, 0], // exists
    [0, 3, 3, 2], // kind
    [1, 3, 3, 1], // num
    [1, 3, 3, 2], // cell
    [1, 3, 2, 0], // size
    [1, 3, 2, 1], // sum
    [1, 1, 1, 0], // add
    [1, 1, 1, 0], // sub
    [2, 3, 3, 2], // role
    [2, 3, 3, 1], // all
    [2, 2, 0, 0], // select
];

// The columns of SHAPES.
const RESULT: u32 = 0;

pub const FIRST: u32 = 1;

pub const SECOND: u32 = 2;

const FIELDS: u32 = 3;

// A body's rows as they were scanned: where the form that ends before each row starts, and the sort of the last.
#[derive(Clone, Copy)]
pub struct Spans {
    pub starts: [u32; 65],
    pub mark: u32,
}

// A column of an operator's row. The table is of bytes, since it is set up anew wherever it is read.
fn stored(code: u32, column: u32) -> u8
    requires { (code < 23) × (column < 4) }
    ensures { (o : Operator) → operator_of code ≡ some o → result ≡ shape_word (shape_of o) column }
{
    let row = code as usize;
    let at = column as usize;
    SHAPES[row][at]
}

// A column of the shape of an operator.
pub fn shape(code: u32, column: u32) -> u32
    requires { (code < 23) × (column < 4) }
    ensures { (o : Operator) → operator_of code ≡ some o → result ≡ shape_word (shape_of o) column }
{
    stored(code, column) as u32
}

// A word of a row of a rule's body, 0 past the table's end. A rule has 64 rows of four words.
pub fn field(bodies: &[u32], rule: u32, row: u32, column: u32) -> u32
    ensures { result ≡ word_at bodies.now 4 (rule * max_forms + row) column }
{
    let at = ((rule as usize) * 64 + (row as usize)) * 4 + (column as usize);
    if at < bodies.len() { bodies[at] } else { 0 }
}

// Whether a part of some sort serves where one is wanted; NONE wants nothing.
fn accepts(want: u32, found: u32) -> bool
    ensures { result ≡ serves want found }
{
    if want == NONE {
        return true;
    }
    want == found
}

// Whether the fields that a row does not use are 0.
fn unused(bodies: &[u32], rule: u32, row: u32, fields: u32) -> bool
    requires { row < 64 }
    ensures { result ≡ fields_fit fields (body_of bodies.now rule row) }
{
    if field(bodies, rule, row, 3) != 0 {
        return false;
    }
    if 2 <= fields {
        return true;
    }
    if field(bodies, rule, row, 2) != 0 {
        return false;
    }
    if 1 <= fields {
        return true;
    }
    field(bodies, rule, row, 1) == 0
}

// The sort of the form that ends with a row, by the sorts of the forms that would be its parts.
fn mark_at(bodies: &[u32], rule: u32, row: u32, first: u32, second: u32) -> u32
    requires { (row < 64) × (first ≡ mark (first_part (body_of bodies.now rule) row)) × (second ≡ mark (second_part (body_of bodies.now rule) row)) }
    ensures { result ≡ mark (ending (body_of bodies.now rule) (suc row)) }
{
    let code = field(bodies, rule, row, 0);
    if 23 <= code {
        return NONE;
    }
    if !accepts(shape(code, FIRST), first) {
        return NONE;
    }
    if !accepts(shape(code, SECOND), second) {
        return NONE;
    }
    if !unused(bodies, rule, row, shape(code, FIELDS)) {
        return NONE;
    }
    shape(code, RESULT)
}

// Where the form that ends with a row starts, by the starts of the forms that would be its parts.
fn start_at(bodies: &[u32], rule: u32, row: u32, first: u32, second: u32) -> u32
    requires { (row < 64) × (first ≡ (first_part (body_of bodies.now rule) row).start) × (second ≡ (second_part (body_of bodies.now rule) row).start) }
    ensures { result ≡ (ending (body_of bodies.now rule) (suc row)).start }
{
    let code = field(bodies, rule, row, 0);
    if 23 <= code {
        return row;
    }
    if shape(code, SECOND) == NONE {
        return row;
    }
    if shape(code, FIRST) == NONE {
        second
    } else {
        first
    }
}

// The scan of a body of n rows. The second part of a row's form ends before the row, and the first before the start of the second. That every lent word is one
// of 32 bits is said for callers that have the bodies in a sheet.
pub fn scan(bodies: &[u32], rule: u32, n: u32) -> Spans
    requires { n ≤ max_forms }
    ensures { (Starts (body_of bodies.now rule) result.starts n) × (result.mark ≡ mark (ending (body_of bodies.now rule) n))
        × ((j : ℕ) → get_or bodies.now j 0 < 2 ^ 32) }
{
    let mut starts = [0u32; 65];
    let mut marks = [NONE; 65];
    for row in 0..n {
        let at = row as usize;
        let middle = starts[at] as usize;
        let start = start_at(bodies, rule, row, starts[middle], starts[at]);
        let mark = mark_at(bodies, rule, row, marks[middle], marks[at]);
        starts[at + 1] = start;
        marks[at + 1] = mark;
    }
    let last = n as usize;
    let mark = marks[last];
    Spans { starts, mark }
}
