// The marks of a batch: "one mark for each of the 1,024 entity positions" for each rule, one bit each. A rule's marks are 32 words that follow each other, so
// that trailing zeros give its next marked row, and a rule without a mark is passed over by 32 words.
#![tactic(auto)]

ghost use Rattle.std.specs.Prelude.{◌≡◌, false, ◌&&◌, ◌||◌, ℕ, ◌+◌, ◌≤◌, ◌<◌, eqb, length};
ghost use Rattle.meaning.specs.Limits.{max_objects, max_rules};
ghost use Rattle.bits.specs.Bits.{bit_at};
ghost use Rattle.pair_marks.specs.Marks.{marked, has_mark, Next};

// Marks a row for a rule.
pub fn mark(marks: &mut [u32; 1024], rule: u32, row: u32)
    requires { (length marks.old ≡ 1024) × (rule < max_rules) × (row < max_objects) }
    ensures { (length marks.new ≡ 1024)
        × ((i j : ℕ) → j < max_objects → marked marks.new i j ≡ (marked marks.old i j || (eqb i rule && eqb j row))) }
{
    let at = (rule * 32 + row / 32) as usize;
    marks[at] = bits::with(marks[at], row % 32);
}

// The bits of a word from one on; it has 32.
fn from_bit(word: u32, i: u32) -> u32
    requires { i < 32 }
    ensures { ((j : ℕ) → bit_at result j ≡ bit_at word (i + j)) × ((j : ℕ) → 32 ≤ j → bit_at word j ≡ false) }
{
    word >> i
}

// The first row from one on that is marked for a rule; 1,024 where there is none.
pub fn next_row(marks: &[u32; 1024], rule: u32, from: u32) -> u32
    requires { (rule < max_rules) × (from ≤ max_objects) }
    ensures { Next (marked marks.now rule) max_objects from result }
{
    let mut row = from;
    while row < 1024 {
        let at = (rule * 32 + row / 32) as usize;
        let low = bits::lowest(from_bit(marks[at], row % 32));
        if low < 32 {
            return row + low;
        }
        row = (row / 32 + 1) * 32;
    }
    1024
}

// The first rule from one on that has a mark; 32 where there is none.
pub fn next_rule(marks: &[u32; 1024], from: u32) -> u32
    requires { from ≤ max_rules }
    ensures { Next (has_mark marks.now) max_rules from result }
{
    for word in from * 32..1024 {
        let at = word as usize;
        if bits::lowest(marks[at]) < 32 {
            return word / 32;
        }
    }
    32
}
