// The programs from a reader to a writer: a text is read whole, and what is said of it is written. Where the input failed before its end nothing is
// written, since what was read of it is no text.
#![tactic(auto)]

ghost use Rattle.std.specs.Prelude.{◌≡◌, length, take, IfOk, IfErr, IfSome, OnOk};
ghost use Rattle.std.specs.Io.{ReadsAtMost};
ghost use Rattle.std.specs.Io.KnownBytes.{Keeps, Appends};
ghost use Rattle.answers.specs.Checks.{check_prints};
ghost use Rattle.park_answers.specs.Prints.{park_prints};
ghost use Rattle.programs.specs.Failures.{IfReading};

use park_answers::Asked;
use std::io;
use std::io::{Read, Write};

// The side at which a program failed.
#[derive(Debug, Drop)]
pub enum Failure {
    Reading(io::Error),
    Writing(io::Error),
}

// Reads until the bytes are full or the input ends, and answers how many were read. It fails where a read does.
fn fill<R: Read>(from: &mut R, text: &mut [u8]) -> io::Result<usize>
    ensures within { ReadsAtMost result text.new }
    ensures bytes { IfOk result (λ n. IfSome (R.remaining from.old) (λ left. take n text.new ≡ take (length text.old) left)) }
{
    let mut length = 0;
    while length < text.len() {
        let more = from.read(&mut text[length..])?;
        if more == 0 {
            return Ok(length);
        }
        length += more;
    }
    Ok(length)
}

// The program of document 01, "Book A": the batch check of a text, its answer and the listed pairs.
pub fn check<R: Read, W: Write>(from: &mut R, to: &mut W) -> Result<(), Failure>
    ensures printed { OnOk result (IfSome (R.remaining from.old) (λ left. Appends (W.contents to.old) (W.contents to.new) (check_prints (take 8193 left)))) }
    ensures unread { IfErr result (λ e. IfReading e (Keeps (W.contents to.old) (W.contents to.new))) }
{
    // one byte more than the longest text, so that a longer one is seen
    let mut text = [0u8; 8193];
    let length = fill(from, &mut text).map_err(Failure::Reading)?;
    let mut out = [0u8; 32768];
    let printed = answers::check(&text[..length], &mut out);
    to.write_all(&out[..printed]).map_err(Failure::Writing)
}

// The same at document 01's limits, and what is asked.
pub fn park<R: Read, W: Write>(asked: Asked, from: &mut R, to: &mut W) -> Result<(), Failure>
    ensures printed { OnOk result (IfSome (R.remaining from.old) (λ left. Appends (W.contents to.old) (W.contents to.new) (park_prints asked (take 65537 left)))) }
    ensures unread { IfErr result (λ e. IfReading e (Keeps (W.contents to.old) (W.contents to.new))) }
{
    let mut text = [0u8; 65537];
    let length = fill(from, &mut text).map_err(Failure::Reading)?;
    let mut out = [0u8; 1048576];
    let printed = park_answers::print(asked, &text[..length], &mut out);
    to.write_all(&out[..printed]).map_err(Failure::Writing)
}
