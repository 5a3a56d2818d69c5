// The losses of a batch in its trace: `specs/Traces` has the table. Each is put at the head of the chain of its object's row.
ghost use Rattle.std.specs.Prelude.{◌≡◌, ℕ, ◌≤◌, ◌<◌, length, set};
ghost use Rattle.meaning.specs.Limits.{max_objects};
ghost use Rattle.tables.specs.Losses.{LossesLow};
ghost use Rattle.register.specs.Tables.{ObjectsAscend};
ghost use Rattle.trace_places.specs.Traces.{loss_count, first_loss};
ghost use Rattle.trace_places.specs.Making.{loss_put, LossesPut};

use crate::places::end_row;
use chains::push;

// A loss at the head of its row's chain, with its role.
fn put(j: u32, row: u32, role: u32, trace: &mut [u16])
    requires { (length trace.old ≡ 16675) × (j < 4352) × (row ≤ max_objects) × (role < 64) }
    ensures { trace.new ≡ loss_put trace.old j row role }
{
    push(1568 + j, row, 4352, 14626 + 2 * row, &mut *trace);
    let at = (10272 + j) as usize;
    trace[at] = role as u16;
}

// How many losses there are.
fn put_count(count: u32, trace: &mut [u16])
    requires { (length trace.old ≡ 16675) × (count ≤ 4352) }
    ensures { trace.new ≡ set trace.old 14624 count }
{
    trace[14624] = count as u16;
}

// The losses in a trace that has none, from the last to the first, and their number.
pub fn fill(
    object_count: u32,
    objects: &[u32],
    count: u32,
    losses: &[u32],
    trace: &mut [u16; 16675],
)
    requires { (ObjectsAscend object_count objects.now)
        × (object_count ≤ max_objects)
        × (count ≤ 4352)
        × (LossesLow losses.now count)
        × ((row : ℕ) → first_loss trace.old row ≡ 0) }
    ensures { (LossesPut object_count objects.now losses.now count trace.old trace.new 0)
        × (loss_count trace.new ≡ count) }
{
    for j in (0..count).rev() {
        let role = rows::word(losses, tables::LOSS_WIDTH, j, 0);
        let id = rows::word(losses, tables::LOSS_WIDTH, j, 1);
        put(j, end_row(object_count, objects, id), role, trace);
    }
    put_count(count, trace);
}
