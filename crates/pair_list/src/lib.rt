// The pairs that a batch marks: written into the lent list, and searched for the first that is broken.
#![tactic(auto)]

ghost use Rattle.std.specs.Prelude.{◌≡◌, [], ◌*◌, ◌≤◌, length};
ghost use Rattle.meaning.specs.Limits.{max_objects, max_rules};
ghost use Rattle.meaning.specs.Answers.{first_broken};
ghost use Rattle.rows.specs.Rows.{in_front};
ghost use Rattle.tables.specs.Layouts.{register_sheet};
ghost use Rattle.tables.specs.Columns.{book_of, register_in};
ghost use Rattle.tables.specs.Answers.{answer_of};
ghost use Rattle.full_search.specs.Search.{Clear};
ghost use Rattle.pair_list.specs.Pairs.{marked_pairs, pair_words};

use full_search::breaks;
use pair_marks::{next_row, next_rule};
use tables::{Answer, Counts, Sheet};

// Writes the pairs at the front of the list; the words past them keep what they held.
pub fn write(n: Counts, marks: &[u32; 1024], objects: &[u32], list: &mut [u32])
    requires { (n.rules ≤ max_rules) × (n.objects ≤ max_objects) × (length (marked_pairs n objects.now marks.now) ≤ max_rules * max_objects)
        × (2 * length (marked_pairs n objects.now marks.now) ≤ length list.old) }
    ensures { list.new ≡ in_front (pair_words (marked_pairs n objects.now marks.now)) list.old }
{
    let mut at: u32 = 0;
    let mut rule = next_rule(marks, 0);
    while rule < n.rules {
        let mut row = next_row(marks, rule, 0);
        while row < n.objects {
            let id = register::id_of(objects, row);
            let words = [rule, id];
            rows::write_row(&mut *list, tables::PAIR_WIDTH, at, &words);
            at += 1;
            row = next_row(marks, rule, row + 1);
        }
        rule = next_rule(marks, rule + 1);
    }
}

// The search: the rules that have a mark one after the other, and the marked objects of each, left at the first body that does not hold.
pub fn search(n: Counts, sheet: &Sheet, index: &[u16; 81920], marks: &[u32; 1024]) -> Answer
    requires { Clear n (register_sheet sheet.now) index.now }
    ensures { let s = register_sheet sheet.now in
        result ≡ answer_of (first_broken (book_of n s) (register_in n s) (marked_pairs n sheet.now.objects.now marks.now)) }
{
    let mut answer = Answer::Accepted;
    let mut rule: u32 = next_rule(marks, 0);
    'search: while rule < n.rules {
        let context = rows::word(sheet.rules, tables::RULE_WIDTH, rule, 0);
        let size = rows::word(sheet.rules, tables::RULE_WIDTH, rule, 1);
        let spans = body_rows::body::scan(sheet.bodies, rule, size);
        let starts = spans.starts;
        let mut row = next_row(marks, rule, 0);
        while row < n.objects {
            if breaks(n, sheet, index, &starts, context, rule, size, row) {
                answer = Answer::Broken(rule, register::id_of(sheet.objects, row));
                break 'search;
            }
            row = next_row(marks, rule, row + 1);
        }
        rule = next_rule(marks, rule + 1);
    }
    answer
}
