// An answer and its pairs, printed.
ghost use Rattle.std.specs.Prelude.{◌≡◌, ◌+◌, ◌≤◌, length};
ghost use Rattle.rows.specs.Rows.{in_front};
ghost use Rattle.line_writer.specs.Put.{Put};
ghost use Rattle.printing.specs.Printed.{answer_line, pair_lines, printed, meant, pairs_in, count_shown, room_for};

use crate::pieces::line;
use tables::Answer;

// The first line, at the front, and how long it is at most.
fn answer_line(out: &mut [u8], answer: Answer) -> usize
    ensures { (Put out.old 0 (answer_line (meant answer)) out.new result) × (length (answer_line (meant answer)) ≤ room_for 0) }
{
    match answer {
        Answer::Accepted => lexical::write_bytes(out, 0, b"answer accepted\n"),
        Answer::Broken(rule, id) => line(out, 0, b"answer broken", rule, id),
        Answer::Refused(number, place) => line(out, 0, b"answer refused", number, place),
    }
}

// How many pairs are shown: none after a refusal.
fn shown(answer: Answer, pairs: u32) -> u32
    ensures { result ≡ count_shown answer pairs }
{
    match answer {
        Answer::Accepted => pairs,
        Answer::Broken(_, _) => pairs,
        Answer::Refused(_, _) => 0,
    }
}

// A line for each of the first pairs of the list.
fn pair_lines(out: &mut [u8], at: usize, pairs: u32, list: &[u32]) -> usize
    requires { at ≤ length out.old + 1 }
    ensures { Put out.old at (pair_lines (pairs_in list.now pairs)) out.new result }
{
    let mut next = at;
    for i in 0..pairs {
        let rule = rows::word(list, tables::PAIR_WIDTH, i, 0);
        let id = rows::word(list, tables::PAIR_WIDTH, i, 1);
        next = line(&mut *out, next, b"pair", rule, id);
    }
    next
}

// Prints an answer and the first pairs of its list at the front of the lent bytes, and answers how many bytes that is; those past them keep what they held.
pub fn print(answer: Answer, pairs: u32, list: &[u32], out: &mut [u8]) -> usize
    requires { room_for pairs ≤ length out.old }
    ensures { let bytes = printed (meant answer) (pairs_in list.now pairs) in
        (out.new ≡ in_front bytes out.old) × (result ≡ length bytes) }
{
    let at = answer_line(&mut *out, answer);
    let count = shown(answer, pairs);
    pair_lines(out, at, count, list)
}
