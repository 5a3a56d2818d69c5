// Chains over a key in one table of half words: a slot holds a row, another column has the slot after it, a third the first slot of each key.
#![tactic(auto)]

ghost use Rattle.std.specs.Prelude.{◌≡◌, ◌+◌, ◌<◌, ◌≤◌, length};
ghost use Rattle.chains.specs.Chains.{pushed};

// A slot with the row that it holds at the head of its key's chain; what was the head is next. `nexts` is where the column of next slots starts, `head` the
// place of the key's first slot.
pub fn push(slot: u32, row: u32, nexts: u32, head: u32, table: &mut [u16])
    requires { (slot < 65535) × (row < 65536) × (slot < length table.old) × (nexts + slot < length table.old) × (head < length table.old) × (length table.old ≤ 81920) }
    ensures { table.new ≡ pushed table.old slot row nexts head }
{
    let key = head as usize;
    let first = table[key];
    let at = slot as usize;
    let next = (nexts + slot) as usize;
    table[at] = row as u16;
    table[next] = first;
    table[key] = (slot + 1) as u16;
}
