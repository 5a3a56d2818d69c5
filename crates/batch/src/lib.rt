// Demand 3: the batch check of lent tables. The events are taken on a copy of the register, the pairs that they select are listed, and the first of them
// that is broken at the end decides.
#![tactic(auto)]

ghost use Rattle.std.specs.Prelude.{◌≡◌, length};
ghost use Rattle.tables.specs.Layouts.{sheet_of};
ghost use Rattle.lent_run.specs.Lent.{scratch_short};
ghost use Rattle.batch.specs.Checked.{lent_outcome, Left};
ghost use Rattle.batch.specs.Settled.{brought_back, Settles};

use batch_judge::{Judged, judge};
use tables::{Answer, Counts, Sheet};

// What a batch check says: its answer, how many pairs it listed, and how many rows of objects and links are used after it.
#[derive(Clone, Copy)]
pub struct Checked {
    pub answer: Answer,
    pub pairs: u32,
    pub objects: u32,
    pub links: u32,
}

// A table's copy brought back: its used rows, and zeros past them.
fn bring_back(table: &mut [u32], copy: &[u32], width: u32, used: u32)
    ensures { table.new ≡ brought_back table.old copy.now width used }
{
    let words = (used as usize) * (width as usize);
    rows::copy_words(&mut *table, copy, words);
    rows::clear_past(&mut *table, width, used);
}

// An accepted batch leaves the register after it, a broken or refused one the register as it was lent.
fn settle(
    judged: Judged,
    n: Counts,
    after: Counts,
    objects: &mut [u32],
    links: &mut [u32],
    scratch_objects: &[u32],
    scratch_links: &[u32],
) -> Checked
    ensures { Settles judged n after objects.old links.old scratch_objects.now scratch_links.now result objects.new links.new }
{
    let answer = judged.answer;
    match answer {
        Answer::Accepted => {
            bring_back(
                objects,
                scratch_objects,
                tables::OBJECT_WIDTH,
                after.objects,
            );
            bring_back(links, scratch_links, tables::LINK_WIDTH, after.links);
            Checked {
                answer: Answer::Accepted,
                pairs: judged.pairs,
                objects: after.objects,
                links: after.links,
            }
        }
        Answer::Broken(rule, id) => Checked {
            answer: Answer::Broken(rule, id),
            pairs: judged.pairs,
            objects: n.objects,
            links: n.links,
        },
        Answer::Refused(number, place) => Checked {
            answer: Answer::Refused(number, place),
            pairs: judged.pairs,
            objects: n.objects,
            links: n.links,
        },
    }
}

// The batch check. Refused by 2, 6, 3, 4, 5, 7 to 13, 15 and 14, in this order; else the pairs that the batch selects are listed, and the answer is the first of
// them that is broken at its end, or accepted.
pub fn check(
    n: Counts,
    types: &[u32],
    floors: &[u32],
    relationships: &[u32],
    rules: &[u32],
    bodies: &[u32],
    objects: &mut [u32],
    links: &mut [u32],
    events: &[u32],
    scratch_objects: &mut [u32],
    scratch_links: &mut [u32],
    list: &mut [u32],
) -> Checked
    ensures { let s = sheet_of types.now floors.now relationships.now rules.now bodies.now objects.old links.old events.now in
        let short = scratch_short objects.old links.old scratch_objects.old scratch_links.old in
        Left (lent_outcome n s short (length list.old)) list.old objects.old links.old result
        list.new objects.new links.new }
{
    let ran = lent_run::run(
        n,
        &Sheet {
            types,
            floors,
            relationships,
            rules,
            bodies,
            objects: &*objects,
            links: &*links,
            events,
        },
        &mut *scratch_objects,
        &mut *scratch_links,
    );
    let verdict = ran.verdict;
    match verdict {
        Err(refusal) => Checked {
            answer: Answer::Refused(refusal.number, refusal.place),
            pairs: 0,
            objects: n.objects,
            links: n.links,
        },
        Ok(()) => {
            let met = ran.met;
            let held = ran.held;
            let after = Counts {
                types: n.types,
                floors: n.floors,
                relationships: n.relationships,
                rules: n.rules,
                objects: held.objects,
                links: held.links,
                events: n.events,
            };
            let judged = judge(
                after,
                &Sheet {
                    types,
                    floors,
                    relationships,
                    rules,
                    bodies,
                    objects: &*scratch_objects,
                    links: &*scratch_links,
                    events,
                },
                &met,
                held.losses,
                &ran.losses,
                &mut *list,
            );
            settle(
                judged,
                n,
                after,
                &mut *objects,
                &mut *links,
                &*scratch_objects,
                &*scratch_links,
            )
        }
    }
}
