// Sets of directions, and what the table of directions says of them.
#![tactic(auto)]

ghost use Rattle.std.specs.Prelude.{◌≡◌, ◌&&◌, cond, [], ◌+◌, ◌-◌, ◌*◌, ◌<◌, get_or};
ghost use Rattle.std.proofs.Math.Option.{some};
ghost use Rattle.tables.specs.Codes.{Operator, operator_of};
ghost use Rattle.direction_table.specs.Entries.{form_number, rule_table};
ghost use Rattle.directions.specs.Sets.{holds_one};
ghost use Rattle.directions.specs.Passes.{pass_row};

// Sets of directions. UP: may turn true, rise, gain. DOWN: may turn false, fall, lose.
pub const UP: u32 = 1;

pub const DOWN: u32 = 2;

// The parts of a form. A form of one part has the second.
pub const FIRST: u32 = 0;

pub const SECOND: u32 = 1;

// A sum's code, and the number of one over a floored cell, which is a form of its own after the operators.
const SUM: u32 = 17;

const FLOORED_SUM: u32 = 23;

// Whether a direction, UP or DOWN, is in a set.
pub fn contains(set: u32, direction: u32) -> bool
    ensures { result ≡ holds_one set direction }
{
    if set == direction {
        return true;
    }
    set == 3
}

// Whether a direction is in both of two sets.
pub fn shared(a: u32, b: u32, direction: u32) -> bool
    ensures { result ≡ (holds_one a direction && holds_one b direction) }
{
    if contains(a, direction) {
        contains(b, direction)
    } else {
        false
    }
}

// The number of a form in the table: its code, but for a sum over a floored cell.
fn form_of(code: u32, floored: bool) -> u32
    ensures { result ≡ form_number code floored }
{
    if floored {
        if code == SUM {
            return FLOORED_SUM;
        }
    }
    code
}

// The directions of a part that move its form in a direction, UP or DOWN, if that is in the set.
fn asked(set: u32, direction: u32, form: u32, part: u32) -> u32
    requires { (0 < direction) × (direction < 3) × (form < 24) × (part < 2) }
    ensures { result ≡ cond (holds_one set direction) (get_or (get_or rule_table form []) (part * 2 + (direction - 1)) 0) 0 }
{
    if contains(set, direction) {
        direction_table::entry(form, part, direction - 1) as u32
    } else {
        0
    }
}

// The directions of a part that move its form in a direction of the set. `floored` says of a sum that its cell is floored, and nothing of another form.
pub fn pass(code: u32, floored: bool, part: u32, set: u32) -> u32
    requires { (code < 23) × (part < 2) × (set < 4) }
    ensures { (o : Operator) → operator_of code ≡ some o → result ≡ get_or (pass_row floored o) (part * 4 + set) 0 }
{
    let form = form_of(code, floored);
    asked(set, UP, form, part) | asked(set, DOWN, form, part)
}
