// What is kept of a batch that was run, for the reach rules: a trace of its events by the rows of the register at the end.
#![tactic(auto)]

ghost use Rattle.std.specs.Prelude.{◌≡◌, ℕ, get_or};
ghost use Rattle.meaning.specs.Reach.{Change, some_step, taken};
ghost use Rattle.tables.specs.Losses.{lost_in};
ghost use Rattle.trace_places.specs.Traces.{Seen, TracedIn};
ghost use Rattle.trace_places.specs.Making.{CanTrace};

use tables::{Counts, Sheet};
use trace_places::{keep, lost, places};
use trace_types::moves;

// The trace of a batch in a table of zeros. The counts are those at the end.
pub fn make(
    n: Counts,
    sheet: &Sheet,
    met: &[u32; 256],
    loss_count: u32,
    losses: &[u32; 8704],
    trace: &mut [u16; 16675],
)
    requires { CanTrace n sheet.now.objects.now sheet.now.links.now met.now loss_count losses.now trace.old }
    ensures { (c : Change)
        → Seen c n sheet.now.types.now sheet.now.objects.now sheet.now.links.now sheet.now.events.now (λ i. get_or met.now i 0)
        → ((r u : ℕ) → lost_in losses.now loss_count r u ≡ some_step c (taken r u))
        → TracedIn c n sheet.now trace.new }
{
    places::place(n.objects, sheet.objects, n.events, sheet.events, trace);
    keep::keep(n.links, sheet.links, n.events, sheet.events, met, trace);
    moves::fill(
        n.types,
        sheet.types,
        n.objects,
        sheet.objects,
        n.events,
        sheet.events,
        met,
        trace,
    );
    lost::fill(n.objects, sheet.objects, loss_count, losses, trace);
}
