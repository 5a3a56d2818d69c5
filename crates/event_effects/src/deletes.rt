// What a delete does to the links: those of the object go with it, and each is a loss for the object at its other end.
ghost use Rattle.std.specs.Prelude.{◌+◌, ◌*◌, ◌-◌, ◌≤◌, ◌≡◌, ◌++◌, length, take, drop, replicate};
ghost use Rattle.meaning.specs.Schema.{Schema};
ghost use Rattle.meaning.specs.Register.{link_key};
ghost use Rattle.meaning.specs.Events.{delete, ends_at};
ghost use Rattle.rows.specs.Rows.{read_rows, with_row};
ghost use Rattle.tables.specs.Columns.{link_row};
ghost use Rattle.event_effects.specs.Losses.{loss_of, losses_of};
ghost use Rattle.event_effects.specs.Effects.{LinksApplied, LossesAdded, CanLose, CanTake};

use crate::Held;
use register::columns;

// Whether the object is at an end of the link in a row, or at both.
fn ends_at(links: &[u32], row: u32, id: u32) -> bool
    ensures { result ≡ ends_at id (link_row links.now row) }
{
    let source = columns::source_of(links, row);
    let target = columns::target_of(links, row);
    if source == id {
        return true;
    }
    target == id
}

// The loss of a link that goes with the object: of the role that led to it, from the object at the other end. A link of the object to itself is nobody's
// loss. It answers how many losses there are then.
fn put_loss(links: &[u32], row: u32, id: u32, count: u32, losses: &mut [u32; 8704]) -> u32
    requires { CanLose (link_row links.now row) count losses.old }
    ensures { LossesAdded (loss_of id (link_row links.now row)) count losses.old result losses.new }
{
    let mut role = 2 * columns::relationship_of(links, row);
    let source = columns::source_of(links, row);
    let target = columns::target_of(links, row);
    if source == target {
        return count;
    }
    let mut other = source;
    if source == id {
        role += 1;
        other = target;
    }
    let at = (count as usize) * (tables::LOSS_WIDTH as usize);
    losses[at] = role;
    losses[at + 1] = other;
    count + 1
}

// Puts a link's row where an earlier one stood; one that stands there already is not written.
fn keep_row(links: &mut [u32], row: u32, kept: u32)
    requires { row * 3 + 3 ≤ length links.old }
    ensures { links.new ≡ with_row links.old 3 kept (link_key (link_row links.old row)) }
{
    if kept == row {
        return;
    }
    let relationship = columns::relationship_of(&*links, row);
    let source = columns::source_of(&*links, row);
    let target = columns::target_of(&*links, row);
    let words = [relationship, source, target];
    rows::write_row(&mut *links, tables::LINK_WIDTH, kept, &words);
}

// Makes the rows from `kept` on 0, up to those that were used.
fn clear_rows(links: &mut [u32], kept: u32, used: u32)
    requires { (kept ≤ used) × (used * 3 ≤ length links.old) }
    ensures { links.new ≡ take (kept * 3) links.old ++ replicate (used * 3 - kept * 3) 0 ++ drop (used * 3) links.old }
{
    let start = (kept as usize) * 3;
    let end = (used as usize) * 3;
    rows::clear_past(&mut links[start..end], tables::LINK_WIDTH, 0);
}

// Takes the object's links out in one pass: a link that stays goes to the first row that is free, one that goes leaves its loss.
pub fn take_links(held: Held, links: &mut [u32], losses: &mut [u32; 8704], id: u32) -> Held
    requires { CanTake held.links links.old held.losses losses.old }
    ensures { ((S : Schema) → LinksApplied S (delete id) held.links links.old result.links links.new)
        × (LossesAdded (losses_of id (read_rows (link_row links.old) held.links))
        held.losses losses.old result.losses losses.new)
        × (result.losses + result.links ≤ held.losses + held.links) }
{
    let used = held.links;
    let mut lost = held.losses;
    let mut kept: u32 = 0;
    for row in 0..used {
        if ends_at(&*links, row, id) {
            lost = put_loss(&*links, row, id, lost, &mut *losses);
        } else {
            keep_row(&mut *links, row, kept);
            kept += 1;
        }
    }
    clear_rows(&mut *links, kept, used);
    Held {
        objects: held.objects,
        links: kept,
        losses: lost,
    }
}
