// The objects at which a rule is selected.
ghost use Rattle.std.specs.Prelude.{◌≡◌, [], ◌∷◌, ◌≤◌, ◌<◌, length};
ghost use Rattle.meaning.specs.Limits.{max_objects, max_rules};
ghost use Rattle.meaning.specs.Reach.{Change};
ghost use Rattle.tables.specs.Columns.{schema_in};
ghost use Rattle.tables.specs.Layouts.{register_sheet};
ghost use Rattle.trace_places.specs.Traces.{TracesIn, TracedIn};
ghost use Rattle.full_search.specs.Search.{Clear};
ghost use Rattle.selection.specs.Selected.{by_events, Added};
ghost use Rattle.selected.specs.Ready.{RuleReady, KnownBy, Marked};

use body_rows::body::scan;
use candidates::candidates;
use pair_marks::mark;
use quietness::quiet::{Still, stillness};
use selected::chosen_at;
use tables::{Counts, Sheet};
use typing::{Place, floored_rows};

// Marks the rows at which a rule is selected; the answer is how many they are.
fn choose(
    n: Counts,
    sheet: &Sheet,
    index: &[u16; 81920],
    spans: &[u32; 65],
    floored: &[bool; 64],
    trace: &[u16; 16675],
    rule: u32,
    still: Still,
    candidate: &[bool; 1024],
    marks: &mut [u32; 1024],
) -> u32
    requires { (RuleReady n sheet.now.types.now sheet.now.objects.now sheet.now.links.now index.now sheet.now.rules.now sheet.now.bodies.now spans.now rule)
        × (TracesIn n sheet.now trace.now)
        × (Marked n sheet.now.types.now sheet.now.objects.now sheet.now.links.now sheet.now.events.now trace.now sheet.now.rules.now sheet.now.bodies.now rule floored.now still candidate.now)
        × (rule < max_rules) × (length marks.old ≡ 1024) }
    ensures { (length marks.new ≡ 1024) × (result ≤ n.objects)
        × ((c : Change) → TracedIn c n sheet.now trace.now
        → KnownBy c sheet.now.rules.now sheet.now.bodies.now rule floored.now still
        → Added sheet.now.objects.now (by_events c sheet.now.rules.now sheet.now.bodies.now sheet.now.objects.now) n.objects («rule» ∷ []) marks.old marks.new result) }
{
    let mut count: u32 = 0;
    for row in 0..n.objects {
        if chosen_at(
            n, sheet, index, spans, floored, trace, rule, still, candidate, row,
        ) {
            mark(marks, rule, row);
            count += 1;
        }
    }
    count
}

// Marks a rule's selected pairs; the answer is how many they are. The sets are room for going back, whatever they hold.
pub fn select_rule(
    n: Counts,
    sheet: &Sheet,
    index: &[u16; 81920],
    trace: &[u16; 16675],
    rule: u32,
    sets: &mut [bool],
    marks: &mut [u32; 1024],
) -> u32
    requires { (Clear n (register_sheet sheet.now) index.now)
        × (TracesIn n sheet.now trace.now)
        × (rule < n.rules) × (length marks.old ≡ 1024) × (length sets.old ≡ 65536) }
    ensures { (length marks.new ≡ 1024) × (length sets.new ≡ length sets.old) × (result ≤ max_objects)
        × ((c : Change) → TracedIn c n sheet.now trace.now
        → c.schema ≡ schema_in n sheet.now
        → Added sheet.now.objects.now (by_events c sheet.now.rules.now sheet.now.bodies.now sheet.now.objects.now) n.objects («rule» ∷ []) marks.old marks.new result) }
{
    let context = rows::word(sheet.rules, tables::RULE_WIDTH, rule, 0);
    let size = rows::word(sheet.rules, tables::RULE_WIDTH, rule, 1);
    let spans = scan(sheet.bodies, rule, size);
    let starts = spans.starts;
    let body = Place {
        types: n.types,
        floors: n.floors,
        relationships: n.relationships,
        rule,
        end: size,
        depth: 1,
    };
    let floored = floored_rows(
        sheet.types,
        sheet.floors,
        sheet.relationships,
        sheet.bodies,
        &starts,
        body,
    );
    let still = stillness(sheet.relationships, sheet.bodies, &starts, body, context);
    let candidate = candidates(n, sheet, index, &starts, &floored, trace, rule, still, sets);
    choose(
        n, sheet, index, &starts, &floored, trace, rule, still, &candidate, marks,
    )
}
