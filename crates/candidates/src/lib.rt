// The candidates of a rule: the objects at which the forward rule is asked.
#![tactic(auto)]

ghost use Rattle.std.specs.Prelude.{◌≡◌, true, false, ◌||◌, ℕ, ◌≤◌, ◌<◌, T, length, get_or};
ghost use Rattle.meaning.specs.Schema.{Schema};
ghost use Rattle.meaning.specs.Reach.{Change};
ghost use Rattle.rows.specs.Rows.{word_at};
ghost use Rattle.tables.specs.Bodies.{whole_body};
ghost use Rattle.tables.specs.Columns.{rule_row};
ghost use Rattle.typing.specs.Types.{FlooredRows};
ghost use Rattle.quietness.specs.Quiet.{StillBy, came_into};
ghost use Rattle.body_rows.specs.Marks.{body_of};
ghost use Rattle.walks.specs.Site.{id_in, site_in};
ghost use Rattle.trace_places.specs.Traces.{TracesIn, TracedIn};
ghost use Rattle.row_sets.specs.Sets.{sets_of, in_set, Room, Grown, GrownBelow};
ghost use Rattle.going_back.specs.Back.{candidate};
ghost use Rattle.going_back.specs.Walkable.{BodyAble};

use directions::DOWN;
use going_back::back;
use ocl::Place;
use quietness::quiet::Still;
use row_sets::{SELF, put_if};
use tables::{Counts, Sheet};

// Puts the rows of the objects that an insert or a special that is not still brought into a type into self's set.
fn put_brought(
    n: Counts,
    sheet: &Sheet,
    trace: &[u16; 16675],
    context: u32,
    still: Still,
    marks: &mut [bool; 1024],
    sets: &mut [bool],
)
    requires { (TracesIn n sheet.now trace.now) × (Room (sets_of marks.old sets.old)) }
    ensures { (Grown (sets_of marks.old sets.old) (sets_of marks.new sets.new))
        × ((c : Change) → TracedIn c n sheet.now trace.now
        → (row : ℕ) → row < n.objects → came_into c still context (id_in sheet.now.objects.now row) ≡ true → in_set (sets_of marks.new sets.new) 0 row ≡ true) }
{
    put_if(
        !still.insert,
        n,
        sheet,
        trace,
        questions::INSERTED,
        context,
        SELF,
        marks,
        sets,
    );
    put_if(
        !still.special,
        n,
        sheet,
        trace,
        questions::SPECIALISED,
        context,
        SELF,
        marks,
        sets,
    );
}

// Puts the rows of a rule's candidates into self's set: of the objects that something not still brought into its context type, and of those from which a
// fall of its body is reached. It answers whether everything is.
fn put_candidates(
    n: Counts,
    sheet: &Sheet,
    index: &[u16; 81920],
    spans: &[u32; 65],
    floored: &[bool; 64],
    trace: &[u16; 16675],
    rule: u32,
    still: Still,
    marks: &mut [bool; 1024],
    sets: &mut [bool],
) -> bool
    requires { T (whole_body (body_of sheet.now.bodies.now rule) (word_at sheet.now.rules.now 2 rule 1))
        × ((S : Schema) × BodyAble S (site_in n sheet.now index.now rule) spans.now (word_at sheet.now.rules.now 2 rule 1))
        × (TracesIn n sheet.now trace.now) × (Room (sets_of marks.old sets.old)) }
    ensures { (GrownBelow 1 (sets_of marks.old sets.old) (sets_of marks.new sets.new))
        × ((c : Change) → TracedIn c n sheet.now trace.now
        → FlooredRows c.schema (body_of sheet.now.bodies.now rule) (word_at sheet.now.rules.now 2 rule 1) floored.now
        → StillBy c.schema (rule_row sheet.now.rules.now sheet.now.bodies.now rule) still
        → result ≡ false → (row : ℕ) → row < n.objects
        → candidate c (rule_row sheet.now.rules.now sheet.now.bodies.now rule) (id_in sheet.now.objects.now row) ≡ true
        → in_set (sets_of marks.new sets.new) 0 row ≡ true) }
{
    if n.objects == 0 {
        return false;
    }
    let context = rows::word(sheet.rules, tables::RULE_WIDTH, rule, 0);
    put_brought(n, sheet, trace, context, still, marks, sets);
    let body = Place(
        rule,
        rows::word(sheet.rules, tables::RULE_WIDTH, rule, 1),
        1,
    );
    back(
        n, sheet, index, spans, floored, trace, body, DOWN, marks, sets,
    )
}

// Marks every row of an object, if everything is reached.
fn mark_all(n: Counts, everything: bool, marks: &mut [bool; 1024])
    requires { (n.objects ≤ 1024) × (length marks.old ≡ 1024) }
    ensures { (row : ℕ) → row < n.objects → get_or marks.new row false ≡ (everything || get_or marks.old row false) }
{
    if !everything {
        return;
    }
    for row in 0..n.objects {
        let at = row as usize;
        marks[at] = true;
    }
}

// The candidates of a rule: self's set, false marks that are filled while going back from the events. The slice is room for the sets of the variables
// within, whatever it holds.
pub fn candidates(
    n: Counts,
    sheet: &Sheet,
    index: &[u16; 81920],
    spans: &[u32; 65],
    floored: &[bool; 64],
    trace: &[u16; 16675],
    rule: u32,
    still: Still,
    sets: &mut [bool],
) -> [bool; 1024]
    requires { T (whole_body (body_of sheet.now.bodies.now rule) (word_at sheet.now.rules.now 2 rule 1))
        × ((S : Schema) × BodyAble S (site_in n sheet.now index.now rule) spans.now (word_at sheet.now.rules.now 2 rule 1))
        × (TracesIn n sheet.now trace.now) × (length sets.old ≡ 65536) }
    ensures { (length sets.new ≡ length sets.old)
        × ((c : Change) → TracedIn c n sheet.now trace.now
        → FlooredRows c.schema (body_of sheet.now.bodies.now rule) (word_at sheet.now.rules.now 2 rule 1) floored.now
        → StillBy c.schema (rule_row sheet.now.rules.now sheet.now.bodies.now rule) still
        → (row : ℕ) → row < n.objects
        → candidate c (rule_row sheet.now.rules.now sheet.now.bodies.now rule) (id_in sheet.now.objects.now row) ≡ true
        → get_or result row false ≡ true) }
{
    let mut marks = [false; 1024];
    let everything = put_candidates(
        n, sheet, index, spans, floored, trace, rule, still, &mut marks, sets,
    );
    mark_all(n, everything, &mut marks);
    marks
}
