// Rows by their keys: the order of a row and a key, and the place of a key among ascending rows.
#![tactic(auto)]

ghost use Rattle.std.specs.Prelude.{◌≡◌};
ghost use Rattle.meaning.specs.Lists.{before};
ghost use Rattle.keys.specs.Keys.{key_at, KeysAscend, LowerBound};

// Whether a row comes before a key, by its first columns.
pub fn before(t: &[u32], width: u32, row: u32, columns: u32, key: &[u32]) -> bool
    ensures { result ≡ before (key_at t.now width columns row) key.now }
{
    for column in 0..columns {
        let at = column as usize;
        if key.len() <= at {
            return false;
        }
        let w = rows::word(t, width, row, column);
        let k = key[at];
        if w != k {
            return w < k;
        }
    }
    false
}

// Where a key belongs among rows that ascend by their first columns: a search that halves the rows between low and high.
pub fn place(t: &[u32], width: u32, count: u32, columns: u32, key: &[u32]) -> u32
    requires { KeysAscend (key_at t.now width columns) count }
    ensures { LowerBound (key_at t.now width columns) count key.now result }
{
    let mut low: u32 = 0;
    let mut high = count;
    while low < high {
        let middle = low + (high - low) / 2;
        if before(t, width, middle, columns, key) {
            low = middle + 1;
        } else {
            high = middle;
        }
    }
    low
}
