// The selected pairs of a batch that was run, over the register's tables at its end.
#![tactic(auto)]

ghost use Rattle.std.specs.Prelude.{◌≡◌, List, [], ℕ, ◌*◌, ◌≤◌, length, get_or};
ghost use Rattle.meaning.specs.Limits.{max_events, max_objects, max_rules};
ghost use Rattle.meaning.specs.Lists.{keep};
ghost use Rattle.meaning.specs.Reach.{Change};
ghost use Rattle.meaning.specs.EventList.{touched};
ghost use Rattle.rows.specs.Rows.{read_rows};
ghost use Rattle.tables.specs.Columns.{rule_row, schema_in};
ghost use Rattle.tables.specs.Layouts.{sheet_in, register_sheet};
ghost use Rattle.register.specs.Tables.{ObjectsAscend};
ghost use Rattle.trace_places.specs.Traces.{Seen};
ghost use Rattle.bits.specs.Bits.{bits_in};
ghost use Rattle.touched.specs.Books.{BookGiven};
ghost use Rattle.full_search.specs.Search.{Clear};
ghost use Rattle.selection.specs.Selected.{by_events, Added};
ghost use Rattle.batch_selection.specs.Ended.{Ended, touched_rules, Selects};

use occurring::mark_events;
use selection::inspection::every_pair;
use selection::select;
use tables::{Counts, Sheet};
use touched::touched;
use trace::make;

// The rules that the batch touches, one bit each.
fn touched_rules(n: Counts, sheet: &Sheet, met: &[u32; 256]) -> u32
    requires { (BookGiven n sheet.now.types.now sheet.now.floors.now sheet.now.relationships.now sheet.now.rules.now sheet.now.bodies.now) × (ObjectsAscend n.objects sheet.now.objects.now) × (n.events ≤ max_events) }
    ensures { (c : Change) (links : List ℕ)
        → Seen c n sheet.now.types.now sheet.now.objects.now links sheet.now.events.now (λ i. get_or met.now i 0)
        → c.schema ≡ schema_in n sheet.now
        → bits_in result ≡ keep (λ i. touched c (rule_row sheet.now.rules.now sheet.now.bodies.now i)) (read_rows (λ i. i) n.rules) }
{
    let mut marks = [false; 1792];
    mark_events(n, sheet.types, sheet.objects, sheet.events, met, &mut marks);
    touched(n, sheet, &marks)
}

// Marks the pairs that the events select; the answer is how many they are.
fn by_events(
    n: Counts,
    sheet: &Sheet,
    index: &[u16; 81920],
    met: &[u32; 256],
    loss_count: u32,
    losses: &[u32; 8704],
    marks: &mut [u32; 1024],
) -> u32
    requires { (Clear n (register_sheet sheet.now) index.now)
        × ((c : Change) × Ended c n (sheet_in sheet.now) met.now loss_count losses.now)
        × (length marks.old ≡ 1024) }
    ensures { let s = sheet_in sheet.now in
        (result ≤ n.rules * max_objects)
        × ((c : Change) → Ended c n s met.now loss_count losses.now
        → Added s.objects (by_events c s.rules s.bodies s.objects) n.objects (touched_rules c n s) marks.old marks.new result) }
{
    let mut trace = [0u16; 16675];
    make(n, sheet, met, loss_count, losses, &mut trace);
    let rules_touched = touched_rules(n, sheet, met);
    select(n, sheet, index, &trace, rules_touched, marks)
}

// Marks the selected pairs; the answer is how many they are. A batch without events is an inspection: nothing is traced, and no rule asked what may have
// moved.
pub fn selected_pairs(
    n: Counts,
    sheet: &Sheet,
    index: &[u16; 81920],
    met: &[u32; 256],
    loss_count: u32,
    losses: &[u32; 8704],
    marks: &mut [u32; 1024],
) -> u32
    requires { (Clear n (register_sheet sheet.now) index.now)
        × ((c : Change) × Ended c n (sheet_in sheet.now) met.now loss_count losses.now)
        × (length marks.old ≡ 1024) × ((k : ℕ) → get_or marks.old k 0 ≡ 0) }
    ensures { let s = sheet_in sheet.now in
        (result ≤ max_rules * max_objects)
        × ((c : Change) → Ended c n s met.now loss_count losses.now → Selects c n s marks.new result) }
{
    if n.events == 0 {
        return every_pair(n, sheet.types, sheet.rules, sheet.objects, marks);
    }
    by_events(n, sheet, index, met, loss_count, losses, marks)
}
