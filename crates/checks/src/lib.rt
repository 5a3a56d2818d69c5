// Every check of a lent book and register, in the order of document 01's table of refusals.
#![tactic(auto)]

ghost use Rattle.std.specs.Prelude.{◌≡◌, []};
ghost use Rattle.meaning.specs.Answers.{refusal};
ghost use Rattle.tables.specs.Layouts.{layouts, sheet_in, register_sheet};
ghost use Rattle.tables.specs.Columns.{book_of, register_in};
ghost use Rattle.tables.specs.Refusals.{lent_refusal, refusal_of, verdict_of};
ghost use Rattle.checks.specs.Stages.{refused_at};

use lent_tables::{any_broken, any_long, any_overfull, not_whole, or, too_many};
use meaning::MAX_EVENTS;
use tables::{Counts, EVENT_WIDTH, Refusal, Sheet};

// One stage of the checks: it refuses at a place, if it meets one.
fn refuse(number: u32, place: Option<u32>) -> Result<(), Refusal>
    ensures { result ≡ refused_at number place }
{
    match place {
        Some(place) => Err(Refusal { number, place }),
        None => Ok(()),
    }
}

// Refusals 3, 4 and 5. All three are looked at before the first that refuses is reported.
fn contents(n: Counts, sheet: &Sheet) -> Result<(), Refusal>
    ensures { let s = register_sheet sheet.now in result ≡ verdict_of (refusal (book_of n s) (register_in n s)) }
{
    let schema = schema::check(
        n.types,
        sheet.types,
        n.floors,
        sheet.floors,
        n.relationships,
        sheet.relationships,
    );
    let book = book::check(
        n.types,
        sheet.types,
        n.relationships,
        sheet.relationships,
        n.rules,
        sheet.rules,
        sheet.bodies,
    );
    let register = register_faults::check(
        n.types,
        sheet.types,
        n.floors,
        sheet.floors,
        n.relationships,
        sheet.relationships,
        n.objects,
        sheet.objects,
        n.links,
        sheet.links,
    );
    refuse(3, schema)?;
    refuse(4, book)?;
    refuse(5, register)
}

// Refusals 2, 6, 3, 4 and 5 of a lent book and register, in this order. The scratch is what a batch check works on.
pub fn check(n: Counts, sheet: &Sheet, scratch_short: bool) -> Result<(), Refusal>
    ensures { result ≡ verdict_of (lent_refusal n (register_sheet sheet.now) scratch_short) }
{
    if any_overfull(n, sheet) {
        return Err(Refusal {
            number: 2,
            place: 0,
        });
    }
    if any_long(sheet.rules, n.rules) {
        return Err(Refusal {
            number: 2,
            place: 0,
        });
    }
    let broken = any_broken(sheet);
    if or(broken, scratch_short) {
        return Err(Refusal {
            number: 6,
            place: 0,
        });
    }
    contents(n, sheet)
}

// The same with a lent batch: 2 and 6 of its table too.
pub fn check_all(n: Counts, sheet: &Sheet, scratch_short: bool) -> Result<(), Refusal>
    ensures { result ≡ verdict_of (refusal_of layouts n (sheet_in sheet.now) scratch_short) }
{
    if too_many(sheet.events, EVENT_WIDTH, n.events as usize, MAX_EVENTS) {
        return Err(Refusal {
            number: 2,
            place: 0,
        });
    }
    let short = or(not_whole(sheet.events, EVENT_WIDTH), scratch_short);
    check(n, sheet, short)
}
