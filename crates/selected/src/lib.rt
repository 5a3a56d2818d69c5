// Whether a rule is selected at an object. The forward rule is asked at marked objects only.
#![tactic(auto)]

ghost use Rattle.std.specs.Prelude.{◌≡◌, ◌<◌};
ghost use Rattle.meaning.specs.Reach.{Change, events_select};
ghost use Rattle.tables.specs.Columns.{rule_row};
ghost use Rattle.quietness.specs.Quiet.{StillBy, came_into};
ghost use Rattle.walks.specs.Site.{id_in};
ghost use Rattle.trace_places.specs.Traces.{TracesIn, TracedIn};
ghost use Rattle.selected.specs.Ready.{RuleReady, FlooredBy, KnownBy, Marked};

use directions::DOWN;
use ocl::Place;
use quietness::quiet::Still;
use reach::moved;
use tables::{Counts, Sheet};

// Whether an insert or a special that is not still brought the object in a row into a type.
fn brought_in(
    n: Counts,
    sheet: &Sheet,
    trace: &[u16; 16675],
    context: u32,
    still: Still,
    row: u32,
) -> bool
    requires { (TracesIn n sheet.now trace.now) × (row < n.objects) }
    ensures { (c : Change) → TracedIn c n sheet.now trace.now
        → result ≡ came_into c still context (id_in sheet.now.objects.now row) }
{
    if questions::ask_if(
        !still.insert,
        true,
        n,
        sheet,
        trace,
        row,
        questions::INSERTED,
        context,
    ) {
        return true;
    }
    questions::ask_if(
        !still.special,
        true,
        n,
        sheet,
        trace,
        row,
        questions::SPECIALISED,
        context,
    )
}

// Whether a rule is selected at the object in a row: it is under the context type, and its body may turn false or it was brought in.
fn selected_at(
    n: Counts,
    sheet: &Sheet,
    index: &[u16; 81920],
    spans: &[u32; 65],
    floored: &[bool; 64],
    trace: &[u16; 16675],
    rule: u32,
    still: Still,
    row: u32,
) -> bool
    requires { (RuleReady n sheet.now.types.now sheet.now.objects.now sheet.now.links.now index.now sheet.now.rules.now sheet.now.bodies.now spans.now rule)
        × (TracesIn n sheet.now trace.now) × (row < n.objects) }
    ensures { (c : Change) → TracedIn c n sheet.now trace.now
        → FlooredBy c sheet.now.rules.now sheet.now.bodies.now rule floored.now
        → StillBy c.schema (rule_row sheet.now.rules.now sheet.now.bodies.now rule) still
        → result ≡ events_select c (rule_row sheet.now.rules.now sheet.now.bodies.now rule) (id_in sheet.now.objects.now row) }
{
    let context = rows::word(sheet.rules, tables::RULE_WIDTH, rule, 0);
    if !schema::under(
        n.types,
        sheet.types,
        register::type_of(sheet.objects, row),
        context,
    ) {
        return false;
    }
    if brought_in(n, sheet, trace, context, still, row) {
        return true;
    }
    let mut vs = [0u32; 64];
    vs[0] = row;
    let body = Place(
        rule,
        rows::word(sheet.rules, tables::RULE_WIDTH, rule, 1),
        1,
    );
    moved(n, sheet, index, spans, floored, trace, &vs, body, DOWN)
}

// The same, asked only where the row is marked.
pub fn chosen_at(
    n: Counts,
    sheet: &Sheet,
    index: &[u16; 81920],
    spans: &[u32; 65],
    floored: &[bool; 64],
    trace: &[u16; 16675],
    rule: u32,
    still: Still,
    marks: &[bool; 1024],
    row: u32,
) -> bool
    requires { (RuleReady n sheet.now.types.now sheet.now.objects.now sheet.now.links.now index.now sheet.now.rules.now sheet.now.bodies.now spans.now rule)
        × (TracesIn n sheet.now trace.now)
        × (Marked n sheet.now.types.now sheet.now.objects.now sheet.now.links.now sheet.now.events.now trace.now sheet.now.rules.now sheet.now.bodies.now rule floored.now still marks.now) × (row < n.objects) }
    ensures { (c : Change) → TracedIn c n sheet.now trace.now
        → KnownBy c sheet.now.rules.now sheet.now.bodies.now rule floored.now still
        → result ≡ events_select c (rule_row sheet.now.rules.now sheet.now.bodies.now rule) (id_in sheet.now.objects.now row) }
{
    let at = row as usize;
    if !marks[at] {
        return false;
    }
    selected_at(n, sheet, index, spans, floored, trace, rule, still, row)
}
