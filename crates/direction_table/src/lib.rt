// Which way a movement passes from a part to its form: one table, by form, part and direction, and nothing else says a direction.
#![tactic(auto)]

ghost use Rattle.std.specs.Prelude.{◌≡◌, [], ◌+◌, ◌*◌, ◌<◌, get_or};
ghost use Rattle.direction_table.specs.Entries.{rule_table};

// Sets of directions. UP: may turn true, rise, gain. DOWN: may turn false, fall, lose. An entry that is not used is NONE.
const NONE: u8 = 0;

const UP: u8 = 1;

const DOWN: u8 = 2;

const BOTH: u8 = 3;

// For each form, by its code, and then for a sum over a floored cell: of its first part, and then of its second, the directions that
// move the form up, and those that move it down. A form of one part has the second. It is of bytes, since it is set up anew wherever it is read.
const PASSES: [[u8; 4]; 24] = [
    [DOWN, UP, UP, DOWN], // le
    [DOWN, UP, UP, DOWN], // lt
    [BOTH, BOTH, BOTH, BOTH], // eq
    [BOTH, BOTH, BOTH, BOTH], // ne
    [UP, DOWN, DOWN, UP], // ge
    [UP, DOWN, DOWN, UP], // gt
    [NONE, NONE, DOWN, UP], // not
    [UP, DOWN, UP, DOWN], // and
    [UP, DOWN, UP, DOWN], // or
    [BOTH, BOTH, BOTH, BOTH], // xor
    [DOWN, UP, UP, DOWN], // implies
    [DOWN, UP, UP, DOWN], // forall
    [UP, DOWN, UP, DOWN], // exists
    [NONE, NONE, NONE, NONE], // kind
    [NONE, NONE, NONE, NONE], // num
    [NONE, NONE, NONE, NONE], // cell
    [NONE, NONE, UP, DOWN], // size
    [NONE, NONE, BOTH, BOTH], // sum
    [UP, DOWN, UP, DOWN], // add
    [UP, DOWN, DOWN, UP], // sub
    [NONE, NONE, NONE, NONE], // role
    [NONE, NONE, NONE, NONE], // all
    [UP, DOWN, UP, DOWN], // select
    [NONE, NONE, UP, DOWN], // sum over a floored cell
];

// The table, whole. The reach rules are proved of it at once: the prover computes that it is theirs, unused entries and all.
fn table() -> [[u8; 4]; 24]
    ensures { result ≡ rule_table }
{
    PASSES
}

// The directions of a part that move its form in a direction, 0 for up and 1 for down.
pub fn entry(form: u32, part: u32, direction: u32) -> u8
    requires { (form < 24) × (part < 2) × (direction < 2) }
    ensures { result ≡ get_or (get_or rule_table form []) (part * 2 + direction) 0 }
{
    let row = form as usize;
    let at = (part * 2 + direction) as usize;
    let passes = table();
    passes[row][at]
}
