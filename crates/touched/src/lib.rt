// "The rules a batch touches are one bit each of a 32-bit word, taken lowest first."
#![tactic(auto)]

ghost use Rattle.std.specs.Prelude.{◌≡◌, ◌<◌};
ghost use Rattle.meaning.specs.Lists.{keep};
ghost use Rattle.meaning.specs.Reach.{Change};
ghost use Rattle.meaning.specs.EventList.{touched};
ghost use Rattle.rows.specs.Rows.{read_rows};
ghost use Rattle.tables.specs.Columns.{rule_row, schema_in};
ghost use Rattle.type_marks.specs.Marks.{places};
ghost use Rattle.bits.specs.Bits.{bits_in};
ghost use Rattle.touched.specs.Shared.{shared_below, Occurring};
ghost use Rattle.touched.specs.Books.{BookGiven};

use event_marks::rule_marks;
use tables::{Counts, Sheet};

const PLACES: usize = 1792;

// Whether some place is marked in both.
fn shared(a: &[bool; 1792], b: &[bool; 1792]) -> bool
    ensures { result ≡ shared_below a.now b.now places }
{
    for place in 0..PLACES {
        if a[place] {
            if b[place] {
                return true;
            }
        }
    }
    false
}

// Whether the batch touches a rule: an event type that the rule lists occurs in it.
fn rule_touched(n: Counts, sheet: &Sheet, rule: u32, occurring: &[bool; 1792]) -> bool
    requires { BookGiven n sheet.now.types.now sheet.now.floors.now sheet.now.relationships.now sheet.now.rules.now sheet.now.bodies.now × (rule < n.rules) }
    ensures { (c : Change) → c.schema ≡ schema_in n sheet.now
        → Occurring c occurring.now
        → result ≡ touched c (rule_row sheet.now.rules.now sheet.now.bodies.now rule) }
{
    let mut marks = [false; 1792];
    rule_marks(
        n.types,
        sheet.types,
        n.floors,
        sheet.floors,
        n.relationships,
        sheet.relationships,
        sheet.rules,
        sheet.bodies,
        rule,
        &mut marks,
    );
    shared(&marks, occurring)
}

// The rules of a lent book that a batch touches, by the marks of the event types that occur in it.
pub fn touched(n: Counts, sheet: &Sheet, occurring: &[bool; 1792]) -> u32
    requires { BookGiven n sheet.now.types.now sheet.now.floors.now sheet.now.relationships.now sheet.now.rules.now sheet.now.bodies.now }
    ensures { (c : Change) → c.schema ≡ schema_in n sheet.now
        → Occurring c occurring.now
        → bits_in result ≡ keep (λ i. touched c (rule_row sheet.now.rules.now sheet.now.bodies.now i)) (read_rows (λ i. i) n.rules) }
{
    let mut word: u32 = 0;
    for rule in 0..n.rules {
        if rule_touched(n, sheet, rule, occurring) {
            word = bits::with(word, rule);
        }
    }
    word
}
