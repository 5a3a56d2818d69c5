// A text that lines make longer or shorter.
use cases::line::number;
use std::io;
use std::io::Write;

// `%A B HEAD@TAIL`: the lines HEAD i TAIL for each i from A to below B.
pub fn many(text: &mut Vec<u8>, order: &str) -> io::Result<()> {
    let (from, rest) = order.split_once(' ').unwrap_or((order, ""));
    let (to, both) = rest.split_once(' ').unwrap_or((rest, ""));
    let (head, tail) = both.split_once('@').unwrap_or((both, ""));
    for i in number(from)..number(to) {
        writeln!(text, "{head}{i}{tail}")?;
    }
    Ok(())
}

// `*N TEXT`: TEXT so many times.
pub fn repeat(text: &mut Vec<u8>, order: &str) -> io::Result<()> {
    let (times, part) = order.split_once(' ').unwrap_or((order, ""));
    for _ in 0..number(times) {
        text.extend_from_slice(part.as_bytes())?;
    }
    Ok(())
}

// `-N`: so many bytes less.
pub fn shorten(text: &mut Vec<u8>, bytes: u32) {
    text.truncate(text.len().saturating_sub(bytes as usize));
}

// `@AT N B`: the byte B, or none, stands for N bytes.
pub fn splice(text: &mut Vec<u8>, order: &str) -> io::Result<()> {
    let mut numbers = order.split_whitespace().map(number);
    let at = text.len().min(numbers.next().unwrap_or(0) as usize);
    let left = text.len() - at;
    let end = at + left.min(numbers.next().unwrap_or(0) as usize);
    let byte = numbers.next().map(|b| (b % 256) as u8);
    text.splice(at..end, byte)?;
    Ok(())
}
