// Demand 2: the full check of a lent register against a lent book, and one rule at one object.
#![tactic(auto)]

ghost use Rattle.std.specs.Prelude.{◌≡◌, []};
ghost use Rattle.tables.specs.Layouts.{register_sheet};
ghost use Rattle.tables.specs.Answers.{answer_of};
ghost use Rattle.full.specs.Answers.{lent_answer, verdict_for, lent_answer_at};

use full_search::{breaks_at, search};
use tables::{Answer, Counts, Refusal, Sheet};

// The first refusal, else the first broken pair, lowest rule and then lowest id, else accepted.
pub fn check(n: Counts, sheet: &Sheet) -> Answer
    ensures { result ≡ answer_of (lent_answer n (register_sheet sheet.now)) }
{
    match checks::check(n, sheet, false) {
        Err(refusal) => Answer::Refused(refusal.number, refusal.place),
        Ok(()) => {
            let mut index = [0u16; 81920];
            link_index::index(n.objects, sheet.objects, n.links, sheet.links, &mut index);
            search(n, sheet, &index)
        }
    }
}

// The verdict on a question about one rule: 4 where the book has no such rule, after every faulty rule and before the register.
fn verdict_for(verdict: Result<(), Refusal>, rules: u32, rule: u32) -> Result<(), Refusal>
    ensures { result ≡ verdict_for verdict rules rule }
{
    if rule < rules {
        return verdict;
    }
    if let Err(refusal) = verdict {
        if refusal.number != 5 {
            return verdict;
        }
    }
    Err(Refusal {
        number: 4,
        place: rule,
    })
}

// One rule at one object: the first refusal, else broken there, else accepted.
pub fn check_rule(n: Counts, sheet: &Sheet, rule: u32, id: u32) -> Answer
    ensures { result ≡ answer_of (lent_answer_at n (register_sheet sheet.now) «rule» id) }
{
    let verdict = checks::check(n, sheet, false);
    match verdict_for(verdict, n.rules, rule) {
        Err(refusal) => Answer::Refused(refusal.number, refusal.place),
        Ok(()) => {
            let mut index = [0u16; 81920];
            link_index::index(n.objects, sheet.objects, n.links, sheet.links, &mut index);
            if breaks_at(n, sheet, &index, rule, id) {
                Answer::Broken(rule, id)
            } else {
                Answer::Accepted
            }
        }
    }
}
