// Rows of 32-bit words: the only place that does row arithmetic.
#![tactic(auto)]

ghost use Rattle.std.specs.Prelude.{◌≡◌};
ghost use Rattle.rows.specs.Rows.{word_at, whole_rows, rows_lent, copied, with_row, with_word, without_columns, with_gap, without_row, cleared_past};

// The word in a column of a row; 0 past the end.
pub fn word(t: &[u32], width: u32, row: u32, column: u32) -> u32
    ensures { result ≡ word_at t.now width row column }
{
    let at = (row as usize) * (width as usize) + (column as usize);
    if at < t.len() { t[at] } else { 0 }
}

// A 16-bit word as one of 32 bits.
pub fn wide(half: u16) -> u32
    ensures { result ≡ half }
{
    half as u32
}

// Whether the slice is whole rows; of width 0, whether it is empty.
pub fn whole(t: &[u32], width: u32) -> bool
    ensures { result ≡ whole_rows t.now width }
{
    if width == 0 {
        return t.len() == 0;
    }
    t.len() % (width as usize) == 0
}

// How many whole rows the slice has; of width 0, none.
pub fn rows_lent(t: &[u32], width: u32) -> usize
    ensures { result ≡ rows_lent t.now width }
{
    if width == 0 {
        return 0;
    }
    t.len() / (width as usize)
}

// Copies the first n words of src to dst, where both have them. A loop does it and not `copy_from_slice`: with that one the library asks those who link it for
// `memmove` besides `memcpy` and `memset`.
pub fn copy_words(dst: &mut [u32], src: &[u32], n: usize)
    ensures { dst.new ≡ copied dst.old src.now n }
{
    if dst.len() < n {
        return;
    }
    if src.len() < n {
        return;
    }
    for i in 0..n {
        dst[i] = src[i];
    }
}

// Puts a row's words in their place, where they are as many as the width and the slice has the row.
pub fn write_row(t: &mut [u32], width: u32, row: u32, words: &[u32])
    ensures { t.new ≡ with_row t.old width row words.now }
{
    let n = width as usize;
    let at = (row as usize) * n;
    if words.len() != n {
        return;
    }
    if t.len() < at + n {
        return;
    }
    copy_words(&mut t[at..], words, n);
}

// Puts a word in a column of a row, where the slice has the word.
pub fn put_word(t: &mut [u32], width: u32, row: u32, column: u32, word: u32)
    ensures { t.new ≡ with_word t.old width row column word }
{
    let at = (row as usize) * (width as usize) + (column as usize);
    if at < t.len() {
        t[at] = word;
    }
}

// Moves the used rows from `at` on one row up and makes row `at` zeros, where the slice has a row past the used ones.
pub fn open_gap(t: &mut [u32], width: u32, at: u32, used: u32)
    ensures { t.new ≡ with_gap t.old width at used }
{
    let n = width as usize;
    let end = (used as usize + 1) * n;
    if used < at {
        return;
    }
    if t.len() < end {
        return;
    }
    let gap = (at as usize) * n;
    t.copy_within(gap..end - n, gap + n);
    t[gap..gap + n].fill(0);
}

// Takes row `at` out of the used rows: those after it move one row down, and the last used row becomes zeros.
pub fn close_gap(t: &mut [u32], width: u32, at: u32, used: u32)
    ensures { t.new ≡ without_row t.old width at used }
{
    let n = width as usize;
    let end = (used as usize) * n;
    if used <= at {
        return;
    }
    if t.len() < end {
        return;
    }
    let start = (at as usize) * n;
    t.copy_within(start + n..end, start);
    t[end - n..end].fill(0);
}

// Makes the words of a row 0 from a column on, where the slice has the row.
pub fn clear_columns(t: &mut [u32], width: u32, row: u32, column: u32)
    ensures { t.new ≡ without_columns t.old width row column }
{
    let end = (row as usize) * (width as usize) + (width as usize);
    if width < column {
        return;
    }
    if t.len() < end {
        return;
    }
    let start = end - (width - column) as usize;
    t[start..end].fill(0);
}

// Makes every word past the used rows 0.
pub fn clear_past(t: &mut [u32], width: u32, used: u32)
    ensures { t.new ≡ cleared_past t.old width used }
{
    let start = (used as usize) * (width as usize);
    if t.len() < start {
        return;
    }
    t[start..].fill(0);
}
