// The search of the full check over rules and objects, and one rule at one object, of tables that no refusal meets.
#![tactic(auto)]

ghost use Rattle.std.specs.Prelude.{◌≡◌, [], ◌<◌};
ghost use Rattle.tables.specs.Layouts.{register_sheet};
ghost use Rattle.tables.specs.Answers.{answer_of};
ghost use Rattle.walks.specs.Site.{site_in};
ghost use Rattle.ocl.specs.Ready.{BodyReady};
ghost use Rattle.full_search.specs.Search.{found, broken_row, broken_in, Clear};

use tables::{Answer, Counts, Sheet};

// Whether a rule of a context type, with a body of `size` rows, is broken at the object of a row: it is under the type, and the body does not hold.
pub fn breaks(
    n: Counts,
    sheet: &Sheet,
    index: &[u16; 81920],
    starts: &[u32; 65],
    context: u32,
    rule: u32,
    size: u32,
    row: u32,
) -> bool
    requires { BodyReady (site_in n sheet.now index.now rule) starts.now size row }
    ensures { result ≡ broken_row
        (site_in n sheet.now index.now rule)
        context size row }
{
    if schema::under(
        n.types,
        sheet.types,
        register::type_of(sheet.objects, row),
        context,
    ) {
        !ocl::holds_at(n, sheet, index, starts, rule, size, row)
    } else {
        false
    }
}

// The search: rules one after the other, and the objects of each, left at the first body that does not hold.
pub fn search(n: Counts, sheet: &Sheet, index: &[u16; 81920]) -> Answer
    requires { Clear n (register_sheet sheet.now) index.now }
    ensures { result ≡ answer_of (found n (register_sheet sheet.now)) }
{
    let mut answer = Answer::Accepted;
    'search: for rule in 0..n.rules {
        let context = rows::word(sheet.rules, tables::RULE_WIDTH, rule, 0);
        let size = rows::word(sheet.rules, tables::RULE_WIDTH, rule, 1);
        let spans = body_rows::body::scan(sheet.bodies, rule, size);
        let starts = spans.starts;
        for row in 0..n.objects {
            if breaks(n, sheet, index, &starts, context, rule, size, row) {
                answer = Answer::Broken(rule, register::id_of(sheet.objects, row));
                break 'search;
            }
        }
    }
    answer
}

// Whether a rule of the book is broken at the object of an id.
pub fn breaks_at(n: Counts, sheet: &Sheet, index: &[u16; 81920], rule: u32, id: u32) -> bool
    requires { (Clear n (register_sheet sheet.now) index.now) × (rule < n.rules) }
    ensures { result ≡ broken_in n (register_sheet sheet.now) «rule» id }
{
    match register::object_row(n.objects, sheet.objects, id) {
        Some(row) => {
            let context = rows::word(sheet.rules, tables::RULE_WIDTH, rule, 0);
            let size = rows::word(sheet.rules, tables::RULE_WIDTH, rule, 1);
            let spans = body_rows::body::scan(sheet.bodies, rule, size);
            let starts = spans.starts;
            breaks(n, sheet, index, &starts, context, rule, size, row)
        }
        None => false,
    }
}
