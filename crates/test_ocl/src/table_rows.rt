// Rows of tables, total: a word past the end reads 0, and is not put.

pub fn row<const N: usize>(table: &[u32], row: u32) -> [u32; N] {
    let mut words = [0; N];
    let from = table.iter().skip((row as usize).saturating_mul(N));
    for (to, word) in words.iter_mut().zip(from) {
        *to = *word;
    }
    words
}

pub fn put<const N: usize>(table: &mut [u32], row: u32, words: [u32; N]) {
    let to = table.iter_mut().skip((row as usize).saturating_mul(N));
    for (to, word) in to.zip(words.iter()) {
        *to = *word;
    }
}
