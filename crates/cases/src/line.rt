// Lines of data: words, parted by spaces. A number that is not there is 0.

// A block of lines, without the empty line that parts it from the next.
pub fn block(lines: &str) -> &str {
    match lines.strip_suffix('\n') {
        Some(block) if block.ends_with('\n') => block,
        _ => lines,
    }
}

// A number; a negative one as its two's complement.
pub fn number(word: &str) -> u32 {
    match word.parse::<u32>() {
        Ok(n) => n,
        Err(_) => word.parse::<i32>().map_or(0, |n| n.cast_unsigned()),
    }
}

// The numbers of a line after its first word, as many as are wanted.
pub fn numbers<const N: usize>(line: &str) -> [u32; N] {
    let mut numbers = [0; N];
    for (n, word) in numbers.iter_mut().zip(line.split_whitespace().skip(1)) {
        *n = number(word);
    }
    numbers
}
