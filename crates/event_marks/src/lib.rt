// The event list of a rule as marks: what its body and its context list, by document 01's reach rules without objects.
#![tactic(auto)]

ghost use Rattle.std.specs.Prelude.{◌≡◌, T, length};
ghost use Rattle.meaning.specs.EventList.{event_list};
ghost use Rattle.rows.specs.Rows.{word_at};
ghost use Rattle.tables.specs.Bodies.{whole_body};
ghost use Rattle.tables.specs.Columns.{rule_row, floors_of, schema_of};
ghost use Rattle.body_rows.specs.Marks.{body_of};
ghost use Rattle.type_marks.specs.Marks.{places, marked, Added};

use body_rows::body::scan;
use directions::DOWN;
use form_marks::mark_form;
use quietness::quiet::stillness;
use type_marks::put_context;
use typing::{Place, floored_rows};

// Marks what a rule of lent tables lists: what may turn its body false, and what brings an object into its context type, an insert or a
// special that is not still.
pub fn rule_marks(
    type_count: u32,
    types: &[u32],
    floor_count: u32,
    floors: &[u32],
    relationship_count: u32,
    relationships: &[u32],
    rules: &[u32],
    bodies: &[u32],
    rule: u32,
    marks: &mut [bool],
)
    requires { T (whole_body (body_of bodies.now rule) (word_at rules.now 2 rule 1)) × (length marks.old ≡ places) }
    ensures { Added marks.old marks.new (marked (event_list
        (schema_of type_count types.now (floors_of floor_count floors.now) relationship_count relationships.now)
        (rule_row rules.now bodies.now rule))) }
{
    let context = rows::word(rules, tables::RULE_WIDTH, rule, 0);
    let end = rows::word(rules, tables::RULE_WIDTH, rule, 1);
    let spans = scan(bodies, rule, end);
    let starts = spans.starts;
    let mut env = [0u32; 64];
    env[0] = context;
    let form = Place {
        types: type_count,
        floors: floor_count,
        relationships: relationship_count,
        rule,
        end,
        depth: 1,
    };
    let floored = floored_rows(types, floors, relationships, bodies, &starts, form);
    mark_form(
        types,
        relationships,
        bodies,
        &starts,
        &floored,
        &env,
        form,
        DOWN,
        marks,
    );
    let still = stillness(relationships, bodies, &starts, form, context);
    put_context(type_count, types, still, context, marks);
}
