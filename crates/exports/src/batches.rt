// The batch check over pointers and numbers.
ghost use Rattle.std.specs.Prelude.{length};
ghost use Rattle.tables.specs.Layouts.{sheet_of};
ghost use Rattle.lent_run.specs.Lent.{scratch_short};
ghost use Rattle.batch.specs.Checked.{lent_outcome};
ghost use Rattle.exports.specs.Runs.{all_used};
ghost use Rattle.exports.specs.Batches.{BatchTold};

use tables::Counts;

// The batch check of a lent book, register and batch. The answer is 0 0 0 where it is accepted; 1, rule and id; or 2, a refusal's number and place; then how
// many pairs are listed, and how many rows of objects and of links are used after it.
#[unsafe(no_mangle)]
pub extern "C" fn checker_batch(
    types_used: u32,
    floors_used: u32,
    relationships_used: u32,
    rules_used: u32,
    objects_used: u32,
    links_used: u32,
    events_used: u32,
    types: &[u32],
    floors: &[u32],
    relationships: &[u32],
    rules: &[u32],
    bodies: &[u32],
    objects: &mut [u32],
    links: &mut [u32],
    events: &[u32],
    scratch_objects: &mut [u32],
    scratch_links: &mut [u32],
    list: &mut [u32],
    answer: &mut [u32; 6],
)
    ensures { let s = sheet_of types.now floors.now relationships.now rules.now bodies.now objects.old links.old events.now in
        let short = scratch_short objects.old links.old scratch_objects.old scratch_links.old in
        BatchTold (lent_outcome (all_used types_used floors_used relationships_used rules_used objects_used links_used events_used) s short (length list.old))
        list.old objects.old links.old answer.new list.new objects.new links.new }
{
    let n = Counts {
        types: types_used,
        floors: floors_used,
        relationships: relationships_used,
        rules: rules_used,
        objects: objects_used,
        links: links_used,
        events: events_used,
    };
    let done = batch::check(
        n,
        types,
        floors,
        relationships,
        rules,
        bodies,
        objects,
        links,
        events,
        scratch_objects,
        scratch_links,
        list,
    );
    *answer = told::checked(done);
}
