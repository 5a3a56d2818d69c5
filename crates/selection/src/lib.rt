// Which pairs of a rule and an object a batch selects.
#![tactic(auto)]

pub mod inspection;
mod rule;

ghost use Rattle.std.specs.Prelude.{◌≡◌, Bool, [], ℕ, ◌*◌, ◌≤◌, length};
ghost use Rattle.meaning.specs.Limits.{max_objects};
ghost use Rattle.meaning.specs.Lists.{keep};
ghost use Rattle.meaning.specs.Reach.{Change};
ghost use Rattle.rows.specs.Rows.{read_rows};
ghost use Rattle.tables.specs.Columns.{schema_in};
ghost use Rattle.tables.specs.Layouts.{register_sheet};
ghost use Rattle.trace_places.specs.Traces.{TracesIn, TracedIn};
ghost use Rattle.bits.specs.Bits.{bits_in};
ghost use Rattle.full_search.specs.Search.{Clear};
ghost use Rattle.selection.specs.Selected.{by_events, Added};

use rule::select_rule;
use tables::{Counts, Sheet};

// Marks the selected pairs of the touched rules, which are the bits of a word: trailing zeros give the next rule, and the count of ones says how many remain.
// The answer is how many pairs they are.
pub fn select(
    n: Counts,
    sheet: &Sheet,
    index: &[u16; 81920],
    trace: &[u16; 16675],
    touched: u32,
    marks: &mut [u32; 1024],
) -> u32
    requires { (Clear n (register_sheet sheet.now) index.now)
        × (TracesIn n sheet.now trace.now)
        × ((may : ℕ → Bool) × (bits_in touched ≡ keep may (read_rows (λ i. i) n.rules))) × (length marks.old ≡ 1024) }
    ensures { (length marks.new ≡ 1024) × (result ≤ n.rules * max_objects)
        × ((c : Change) → TracedIn c n sheet.now trace.now
        → c.schema ≡ schema_in n sheet.now
        → Added sheet.now.objects.now (by_events c sheet.now.rules.now sheet.now.bodies.now sheet.now.objects.now) n.objects (bits_in touched) marks.old marks.new result) }
{
    let mut sets = [false; 65536];
    let mut left = touched;
    let touched_rules = bits::count(touched);
    let mut count: u32 = 0;
    for _ in 0..touched_rules {
        let rule = bits::lowest(left);
        let found = select_rule(n, sheet, index, trace, rule, &mut sets, marks);
        count += found;
        left = bits::rest(left);
    }
    count
}
