// Refusal 4: each rule of lent tables has a known context type, and a body that is one whole form, well typed, whatever the floors.
#![tactic(auto)]

ghost use Rattle.std.specs.Prelude.{◌≡◌, List};
ghost use Rattle.std.proofs.Math.Option.{Option};
ghost use Rattle.meaning.specs.Schema.{Floor};
ghost use Rattle.meaning.specs.Forms.{Rule, faulty_rule, rule_fault};
ghost use Rattle.tables.specs.Columns.{rule_row, schema_of, rules_of};
ghost use Rattle.tables.specs.Refusals.{found_of};

use body_rows::body;
use typing::Place;

// Whether a rule is faulty.
fn faulty(
    type_count: u32,
    types: &[u32],
    relationship_count: u32,
    relationships: &[u32],
    rules: &[u32],
    bodies: &[u32],
    rule: u32,
) -> bool
    ensures { (fs : List Floor) (p : Option Rule) → result ≡ faulty_rule
        (schema_of type_count types.now fs relationship_count relationships.now)
        rule p (rule_row rules.now bodies.now rule) }
{
    let context = rows::word(rules, tables::RULE_WIDTH, rule, 0);
    if type_count <= context {
        return true;
    }
    let n = rows::word(rules, tables::RULE_WIDTH, rule, 1);
    if 64 < n {
        return true;
    }
    let spans = body::scan(bodies, rule, n);
    if spans.mark != body::TRUTH {
        return true;
    }
    let starts = spans.starts;
    let last = n as usize;
    if starts[last] != 0 {
        return true;
    }
    let mut env = [0u32; 64];
    env[0] = context;
    let form = Place {
        types: type_count,
        floors: 0,
        relationships: relationship_count,
        rule,
        end: n,
        depth: 1,
    };
    !typing::typed(types, relationships, bodies, &starts, &mut env, form)
}

// The first faulty rule.
pub fn check(
    type_count: u32,
    types: &[u32],
    relationship_count: u32,
    relationships: &[u32],
    rule_count: u32,
    rules: &[u32],
    bodies: &[u32],
) -> Option<u32>
    ensures { (fs : List Floor) → result ≡ found_of (rule_fault (record {
      schema = schema_of type_count types.now fs relationship_count relationships.now;
      rules = rules_of rule_count rules.now bodies.now;
    })) }
{
    for rule in 0..rule_count {
        if faulty(
            type_count,
            types,
            relationship_count,
            relationships,
            rules,
            bodies,
            rule,
        ) {
            return Some(rule);
        }
    }
    None
}
