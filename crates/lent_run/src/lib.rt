// A lent batch: every refusal of its tables and its events, each in its place, else the events on a copy of the register.
#![tactic(auto)]

ghost use Rattle.std.specs.Prelude.{◌≡◌};
ghost use Rattle.tables.specs.Layouts.{sheet_in};
ghost use Rattle.lent_run.specs.Lent.{scratch_short, LentRun};

use events::Ran;
use tables::{Counts, Sheet};

// 6, of the scratch: shorter than the table that is copied to it.
fn short(objects: &[u32], links: &[u32], scratch_objects: &[u32], scratch_links: &[u32]) -> bool
    ensures { result ≡ scratch_short objects.now links.now scratch_objects.now scratch_links.now }
{
    if scratch_objects.len() < objects.len() {
        return true;
    }
    scratch_links.len() < links.len()
}

// Runs a batch on a copy of the lent register's used rows. Where no refusal is met, the scratch is the register after it.
pub fn run(n: Counts, sheet: &Sheet, scratch_objects: &mut [u32], scratch_links: &mut [u32]) -> Ran
    ensures { LentRun n (sheet_in sheet.now)
        scratch_objects.old scratch_links.old result scratch_objects.new scratch_links.new }
{
    let too_short = short(
        sheet.objects,
        sheet.links,
        &*scratch_objects,
        &*scratch_links,
    );
    match checks::check_all(n, sheet, too_short) {
        Err(refusal) => events::refused(refusal, n.objects, n.links),
        Ok(()) => events::run(
            n.types,
            sheet.types,
            n.floors,
            sheet.floors,
            n.relationships,
            sheet.relationships,
            n.objects,
            sheet.objects,
            n.links,
            sheet.links,
            scratch_objects,
            scratch_links,
            n.events,
            sheet.events,
        ),
    }
}
