// A line of the text by its bytes: names, tokens, and the items of a line without an inner bracket.
#![tactic(auto)]

ghost use Rattle.std.specs.Prelude.{◌≡◌, true, List, ℕ, ◌+◌, ◌-◌, ◌≤◌, ◌<◌, length, take, drop};
ghost use Rattle.meaning.specs.Lists.{every};
ghost use Rattle.text.specs.Names.{is_letter, letters_in, place_of};
ghost use Rattle.lexical.specs.Decimals.{number_in};
ghost use Rattle.text.specs.Tokens.{dash_in, item_or, after_space, token_in};
ghost use Rattle.tokens.specs.Tokens.{place_found, found_at, items_at, packed};

use text::{DASH, NAME_COUNT};

// A token, and the place after it. An item is a number's word, or DASH.
#[derive(Clone, Copy)]
pub enum Found {
    Begin { name: u32, next: usize },
    Item { value: u64, next: usize },
    End { next: usize },
}

// The items of a line: how many, and their values, zeros after them.
#[derive(Clone, Copy)]
pub struct ItemsFound {
    pub count: u32,
    pub values: [u64; 10],
}

// A name: its place among the names, if it is one of them, and the place after its letters.
#[derive(Clone, Copy)]
pub struct NameFound {
    pub place: Option<u32>,
    pub end: usize,
}

// The names in the order of the text, each as one number: its letters are the digits at base 256, the first the least.
const NAMES: [u64; 36] = [
    1701869940, // type
    491495844966, // floor
    7103858, // rel
    1701606770, // rule
    7630437, // ent
    1802398060, // link
    128034677157481, // insert
    111550592214372, // delete
    7628147, // set
    1852403562, // join
    1953653104, // part
    30506402751803507, // special
    30506441440650599, // general
    25964, // le
    29804, // lt
    29029, // eq
    25966, // ne
    25959, // ge
    29799, // gt
    7630702, // not
    6581857, // and
    29295, // or
    7499640, // xor
    32481125787004265, // implies
    119212747157350, // forall
    126943989692517, // exists
    1684957547, // kind
    7173486, // num
    1819043171, // cell
    1702521203, // size
    7173491, // sum
    6579297, // add
    6452595, // sub
    1701605234, // role
    7105633, // all
    127970252186995, // select
];

// Where the letters at a place end.
fn letters_end(line: &[u8], at: usize) -> usize
    ensures { result ≡ at + length (letters_in (drop at line.now)) }
{
    for i in at..line.len() {
        let b = line[i];
        if !b.is_ascii_lowercase() {
            return i;
        }
    }
    line.len().max(at)
}

// At most seven bytes as one number.
fn pack(line: &[u8], at: usize, end: usize) -> u64
    requires { (at ≤ end) × (end - at ≤ 7) × (end - at ≤ length line.now - at) }
    ensures { result ≡ packed (take (end - at) (drop at line.now)) }
{
    let mut value: u64 = 0;
    for i in (at..end).rev() {
        value = value * 256 + (line[i] as u64);
    }
    value
}

// The place of the name that is this number.
fn place(value: u64) -> Option<u32>
    ensures { (l : List ℕ) → every is_letter l ≡ true → packed l ≡ value → result ≡ place_found (place_of l) }
{
    for k in 0..NAME_COUNT {
        let row = k as usize;
        if NAMES[row] == value {
            return Some(k);
        }
    }
    None
}

// The name that the letters at a place are, all of them.
pub fn name(line: &[u8], at: usize) -> NameFound
    ensures { (result.place ≡ place_found (place_of (letters_in (drop at line.now)))) × (result.end ≡ at + length (letters_in (drop at line.now))) }
{
    let end = letters_end(line, at);
    if 7 < end - at {
        return NameFound { place: None, end };
    }
    let place = place(pack(line, at, end));
    NameFound { place, end }
}

// The item after a space.
fn item(line: &[u8], at: usize) -> Option<Found>
    requires { at + 1 < length line.now }
    ensures { result ≡ found_at at (item_or (number_in (drop (at + 1) line.now)) (dash_in (drop (at + 1) line.now))) }
{
    let start = at + 1;
    if let Some(n) = lexical::read_number(line, start) {
        return Some(Found::Item {
            value: n.word as u64,
            next: n.next,
        });
    }
    if line[start] != b'-' {
        return None;
    }
    Some(Found::Item {
        value: DASH,
        next: start + 1,
    })
}

// What stands after the space at a place.
fn after_space(line: &[u8], at: usize) -> Option<Found>
    requires { at < length line.now }
    ensures { result ≡ found_at at (after_space (drop (at + 1) line.now)) }
{
    let from = at + 1;
    if line.len() <= from {
        return None;
    }
    if line[from] != b'(' {
        return item(line, at);
    }
    let n = name(line, from + 1);
    let place = n.place?;
    Some(Found::Begin {
        name: place,
        next: n.end,
    })
}

// The token at a place; past the end there is none.
pub fn token(line: &[u8], at: usize) -> Option<Found>
    ensures { result ≡ found_at at (token_in (drop at line.now)) }
{
    if line.len() <= at {
        return None;
    }
    match line[at] {
        b')' => Some(Found::End { next: at + 1 }),
        b' ' => after_space(line, at),
        _ => None,
    }
}

// The items from a place to the end of the line, which has no inner bracket.
pub fn items(line: &[u8], at: usize) -> Option<ItemsFound>
    ensures { result ≡ items_at (drop at line.now) }
{
    let mut values = [0u64; 10];
    let mut count: u32 = 0;
    let mut i = at;
    loop {
        match token(line, i)? {
            Found::Item { value, next } => {
                if 9 < count {
                    return None;
                }
                let k = count as usize;
                values[k] = value;
                count += 1;
                i = next;
            }
            Found::End { next } => {
                if next < line.len() {
                    return None;
                }
                return Some(ItemsFound { count, values });
            }
            Found::Begin { .. } => return None,
        }
    }
}
