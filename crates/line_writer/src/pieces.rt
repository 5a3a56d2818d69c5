// The pieces of a line, each put at a place: brackets with their names, items, and the end of a line.
ghost use Rattle.std.specs.Prelude.{[], ◌∷◌, ◌+◌, ◌≤◌, ◌<◌, length, take, drop};
ghost use Rattle.text.specs.Names.{name_of, name_count};
ghost use Rattle.text.specs.Tokens.{spell_token, begin, item};
ghost use Rattle.text.specs.Entries.{parent_item};
ghost use Rattle.line_writer.specs.Put.{Put};
ghost use Rattle.line_writer.specs.Lines.{spell_items, row_line};

// The word that stands for no parent.
const NO_PARENT: u32 = 0xFFFF_FFFF;

// The names of sections, events and operators, one after the other.
const NAMES: [u8; 139] =
    *b"typefloorrelruleentlinkinsertdeletesetjoinpartspecialgenerallelteqnegegtnotandorxorimpliesforallexistskindnumcellsizesumaddsubroleallselect";

// Where each name starts in NAMES, and where the last ends.
const STARTS: [usize; 37] = [
    0, 4, 9, 12, 16, 19, 23, 29, 35, 38, 42, 46, 53, 60, 62, 64, 66, 68, 70, 72, 75, 78, 80, 83,
    90, 96, 102, 106, 109, 113, 117, 120, 123, 126, 130, 133, 139,
];

// An open bracket and a name.
pub fn open(out: &mut [u8], at: usize, name: u32) -> usize
    requires { name < name_count }
    ensures { Put out.old at (40 ∷ name_of name) out.new result }
{
    let names = NAMES;
    let k = name as usize;
    let from = STARTS[k];
    let to = STARTS[k + 1];
    let next = lexical::write_bytes(&mut *out, at, b"(");
    lexical::write_bytes(out, next, &names[from..to])
}

// A space, and what `open` puts.
pub fn open_inner(out: &mut [u8], at: usize, name: u32) -> usize
    requires { name < name_count }
    ensures { Put out.old at (spell_token (begin name)) out.new result }
{
    let next = lexical::write_bytes(&mut *out, at, b" ");
    open(out, next, name)
}

// A space and a number.
pub fn number(out: &mut [u8], at: usize, word: u32) -> usize
    ensures { Put out.old at (spell_token (item word)) out.new result }
{
    let next = lexical::write_bytes(&mut *out, at, b" ");
    lexical::write_number(out, next, word)
}

// A type's parent; `-` for none.
pub fn parent(out: &mut [u8], at: usize, word: u32) -> usize
    ensures { Put out.old at (spell_token (item (parent_item word))) out.new result }
{
    if word == NO_PARENT {
        return lexical::write_bytes(out, at, b" -");
    }
    number(out, at, word)
}

// Words of a table as numbers.
pub fn numbers(out: &mut [u8], at: usize, t: &[u32], from: usize, count: usize) -> usize
    requires { (from + count ≤ length t.now) × (at ≤ length out.old + 1) }
    ensures { Put out.old at (spell_items (take count (drop from t.now))) out.new result }
{
    let mut next = at;
    for i in 0..count {
        next = number(&mut *out, next, t[from + i]);
    }
    next
}

// A closed bracket and the end of the line.
pub fn end_line(out: &mut [u8], at: usize) -> usize
    ensures { Put out.old at (41 ∷ 10 ∷ []) out.new result }
{
    lexical::write_bytes(out, at, b")\n")
}

// A line of a name and words of a table.
pub fn row_line(out: &mut [u8], at: usize, name: u32, t: &[u32], from: usize, count: usize) -> usize
    requires { (name < name_count) × (from + count ≤ length t.now) }
    ensures { Put out.old at (row_line name (take count (drop from t.now))) out.new result }
{
    let a = open(&mut *out, at, name);
    let b = numbers(&mut *out, a, t, from, count);
    end_line(out, b)
}
