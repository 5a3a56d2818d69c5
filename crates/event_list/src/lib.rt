// The event list of a rule of a lent book: "three 16-bit words each: place in that order from 0, type or relationship, cell or 0".
#![tactic(auto)]

ghost use Rattle.std.specs.Prelude.{◌≡◌, [], length};
ghost use Rattle.std.proofs.Math.Option.{none};
ghost use Rattle.tables.specs.Layouts.{book_sheet};
ghost use Rattle.tables.specs.Refusals.{verdict_of};
ghost use Rattle.event_list.specs.Answers.{lent_book_refusal, rule_refusal, answer, list_after};

use event_marks::rule_marks;
use tables::{Counts, Refusal, Sheet};

// Refusals 2, 6, 3 and 4 of a lent book. There is no register, which the checks are shown as an empty one.
pub fn book_verdict(n: Counts, sheet: &Sheet) -> Result<(), Refusal>
    ensures { result ≡ verdict_of (lent_book_refusal n (book_sheet sheet.now)) }
{
    let book = Counts {
        types: n.types,
        floors: n.floors,
        relationships: n.relationships,
        rules: n.rules,
        objects: 0,
        links: 0,
        events: 0,
    };
    let none = &sheet.types[..0];
    checks::check(
        book,
        &Sheet {
            types: sheet.types,
            floors: sheet.floors,
            relationships: sheet.relationships,
            rules: sheet.rules,
            bodies: sheet.bodies,
            objects: none,
            links: none,
            events: &[],
        },
        false,
    )
}

// The same, and then 4 of a rule number that the book lacks. With the law named here a refusal of the book is proved in whichever way the code hands it on, so that
// an edit of one is refused for its value and not for its form.
#[tactic(auto, using(crate::proofs::Answers::book_refused))]
fn verdict(n: Counts, sheet: &Sheet, rule: u32) -> Result<(), Refusal>
    ensures { result ≡ verdict_of (rule_refusal n (book_sheet sheet.now) «rule») }
{
    book_verdict(n, sheet)?;
    if rule < n.rules {
        Ok(())
    } else {
        Err(Refusal {
            number: 4,
            place: rule,
        })
    }
}

// The event list of a rule that nothing refuses, as `list` writes it. It stands apart, so that a refusal doesn't pay for the marks.
fn list_known(n: Counts, sheet: &Sheet, rule: u32, list: &mut [u16]) -> Result<u32, Refusal>
    requires { rule_refusal n (book_sheet sheet.now) «rule» ≡ none }
    ensures { let s = book_sheet sheet.now in
        (result ≡ answer n s «rule» (length list.old)) × (list.new ≡ list_after n s «rule» list.old) }
{
    let mut marks = [false; 1792];
    rule_marks(
        n.types,
        sheet.types,
        n.floors,
        sheet.floors,
        n.relationships,
        sheet.relationships,
        sheet.rules,
        sheet.bodies,
        rule,
        &mut marks,
    );
    let count = mark_words::count(&marks);
    if list.len() < (count as usize) * 3 {
        return Err(Refusal {
            number: 14,
            place: 0,
        });
    }
    mark_words::write(&marks, list);
    Ok(count)
}

// Writes a rule's event list at the front of the lent words, and answers how many event types it has. Words past it keep what they held, and a refusal writes none.
pub fn list(n: Counts, sheet: &Sheet, rule: u32, list: &mut [u16]) -> Result<u32, Refusal>
    ensures { let s = book_sheet sheet.now in
        (result ≡ answer n s «rule» (length list.old)) × (list.new ≡ list_after n s «rule» list.old) }
{
    verdict(n, sheet, rule)?;
    list_known(n, sheet, rule, list)
}
