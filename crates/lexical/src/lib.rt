// The lowest layer of the text: decimals, lines, and bytes put into a lent text.
#![tactic(auto)]

ghost use Rattle.std.specs.Prelude.{◌≡◌, ◌+◌, ◌≤◌, ◌<◌, length, drop};
ghost use Rattle.rows.specs.Rows.{signed};
ghost use Rattle.lexical.specs.Decimals.{digits_of, decimal_of, digits_in, cut_value, plain_at, negative, number_in, number_at};
ghost use Rattle.lexical.specs.Lines.{line_in, line_ended};
ghost use Rattle.lexical.specs.Writing.{written, place_after};

// A number that was read: its two's complement word, and the place after it.
#[derive(Clone, Copy)]
pub struct Number {
    pub word: u32,
    pub next: usize,
}

// What the digits at a place say, and where they end.
#[derive(Clone, Copy)]
struct Digits {
    value: u64,
    end: usize,
}

// The digits at a place, however many; what is too large for a number is 2^31 + 1.
fn scan(text: &[u8], at: usize) -> Digits
    ensures { (result.value ≡ cut_value (digits_in (drop at text.now))) × (result.end ≡ at + length (digits_in (drop at text.now))) }
{
    let mut value: u64 = 0;
    for i in at..text.len() {
        let b = text[i];
        if !b.is_ascii_digit() {
            return Digits { value, end: i };
        }
        value = (value * 10 + ((b - b'0') as u64)).min(2147483649);
    }
    Digits {
        value,
        end: text.len().max(at),
    }
}

// The same of plain digits; none where there is no digit or a 0 before others.
fn plain_digits(text: &[u8], at: usize) -> Option<Digits>
    ensures { result ≡ plain_at at (digits_in (drop at text.now)) }
{
    let d = scan(text, at);
    let end = d.end;
    if end <= at {
        return None;
    }
    if text[at] == b'0' && at + 1 < end {
        return None;
    }
    Some(d)
}

// The number whose `-` stands at the place.
fn read_negative(text: &[u8], at: usize) -> Option<Number>
    requires { at < length text.now }
    ensures { result ≡ number_at at (negative (digits_in (drop (at + 1) text.now))) }
{
    let d = plain_digits(text, at + 1)?;
    let value = d.value;
    if value < 1 || 2147483648 < value {
        return None;
    }
    let word = (4294967296 - value) as u32;
    Some(Number { word, next: d.end })
}

// The number at a place, in its one spelling; past the end there is none.
pub fn read_number(text: &[u8], at: usize) -> Option<Number>
    ensures { result ≡ number_at at (number_in (drop at text.now)) }
{
    if text.len() <= at {
        return None;
    }
    if text[at] == b'-' {
        return read_negative(text, at);
    }
    let d = plain_digits(text, at)?;
    let value = d.value;
    if 2147483647 < value {
        return None;
    }
    let word = value as u32;
    Some(Number { word, next: d.end })
}

// Puts the digits of n at the end of the buffer, and answers where they start.
fn spell_digits(n: u32, buffer: &mut [u8; 11]) -> usize
    requires { length buffer.old ≡ 11 }
    ensures { (1 ≤ result) × (result ≤ 10) × (drop result buffer.new ≡ digits_of n) × (length buffer.new ≡ 11) }
{
    let mut i = 10;
    buffer[i] = b'0' + (n % 10) as u8;
    let mut rest = n / 10;
    while 0 < rest {
        i -= 1;
        buffer[i] = b'0' + (rest % 10) as u8;
        rest /= 10;
    }
    i
}

// Puts a word's decimal at the end of the buffer, and answers where it starts.
fn spell(word: u32, buffer: &mut [u8; 11]) -> usize
    requires { length buffer.old ≡ 11 }
    ensures { (result ≤ 10) × (drop result buffer.new ≡ decimal_of (signed word)) × (length buffer.new ≡ 11) }
{
    if word < 2147483648 {
        return spell_digits(word, buffer);
    }
    let start = spell_digits(4294967295 - word + 1, buffer);
    let sign = start - 1;
    buffer[sign] = b'-';
    sign
}

// Puts bytes at a place, where they fit, and answers the place after them; else the text stays as it is, and the answer is one past its length.
pub fn write_bytes(out: &mut [u8], at: usize, bytes: &[u8]) -> usize
    ensures { (result ≡ place_after out.old at bytes.now) × (out.new ≡ written out.old at bytes.now) }
{
    if out.len() < at || out.len() - at < bytes.len() {
        return out.len() + 1;
    }
    let end = at + bytes.len();
    out[at..end].copy_from_slice(bytes);
    end
}

// Puts a word's decimal at a place, as write_bytes does.
pub fn write_number(out: &mut [u8], at: usize, word: u32) -> usize
    ensures { (result ≡ place_after out.old at (decimal_of (signed word))) × (out.new ≡ written out.old at (decimal_of (signed word))) }
{
    let mut buffer = [0u8; 11];
    let start = spell(word, &mut buffer);
    write_bytes(out, at, &buffer[start..])
}

// Where the line at a place ends: at its byte 10, or at the text's end.
pub fn line_end(text: &[u8], at: usize) -> usize
    ensures { result ≡ at + length (line_in (drop at text.now)) }
{
    for i in at..text.len() {
        if text[i] == b'\n' {
            return i;
        }
    }
    text.len().max(at)
}

// The line at a place, as the very part of the text; past the end it is empty.
pub fn line(text: &[u8], at: usize) -> &[u8]
    ensures { result.now ≡ line_in (drop at text.now) }
{
    if text.len() < at {
        return &text[..0];
    }
    let end = line_end(text, at);
    &text[at..end]
}

// Whether a byte 10 ends the line at a place.
pub fn is_ended(text: &[u8], at: usize) -> bool
    ensures { result ≡ line_ended (drop at text.now) }
{
    let end = line_end(text, at);
    end < text.len() && text[end] == b'\n'
}
