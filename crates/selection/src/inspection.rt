// The pairs of an inspection: every rule at every object of its context type.
ghost use Rattle.std.specs.Prelude.{◌≡◌, [], ◌∷◌, ◌*◌, ◌≤◌, ◌<◌, length};
ghost use Rattle.meaning.specs.Limits.{max_objects, max_rules};
ghost use Rattle.rows.specs.Rows.{read_rows};
ghost use Rattle.tables.specs.Columns.{types_of};
ghost use Rattle.selection.specs.Selected.{in_context, Added};

use pair_marks::mark;
use tables::Counts;

// Marks the rows under a rule's context type; the answer is how many they are.
fn mark_context(
    n: Counts,
    types: &[u32],
    rules: &[u32],
    objects: &[u32],
    rule: u32,
    marks: &mut [u32; 1024],
) -> u32
    requires { (n.objects ≤ max_objects) × (rule < max_rules) × (length marks.old ≡ 1024) }
    ensures { (length marks.new ≡ 1024) × (result ≤ n.objects)
        × (Added objects.now (in_context (types_of n.types types.now) rules.now objects.now) n.objects («rule» ∷ []) marks.old marks.new result) }
{
    let context = rows::word(rules, tables::RULE_WIDTH, rule, 0);
    let mut count: u32 = 0;
    for row in 0..n.objects {
        if schema::under(n.types, types, register::type_of(objects, row), context) {
            mark(marks, rule, row);
            count += 1;
        }
    }
    count
}

// Req 08: marks every pair of a rule and an object of its context type; the answer is how many they are.
pub fn every_pair(
    n: Counts,
    types: &[u32],
    rules: &[u32],
    objects: &[u32],
    marks: &mut [u32; 1024],
) -> u32
    requires { (n.rules ≤ max_rules) × (n.objects ≤ max_objects) × (length marks.old ≡ 1024) }
    ensures { (length marks.new ≡ 1024) × (result ≤ n.rules * max_objects)
        × (Added objects.now (in_context (types_of n.types types.now) rules.now objects.now) n.objects (read_rows (λ i. i) n.rules) marks.old marks.new result) }
{
    let mut count: u32 = 0;
    for rule in 0..n.rules {
        let found = mark_context(n, types, rules, objects, rule, marks);
        count += found;
    }
    count
}
