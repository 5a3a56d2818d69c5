// What a program prints of an answer and its pairs.
#![tactic(auto)]

mod outcome;
pub mod pieces;

ghost use Rattle.std.specs.Prelude.{◌≡◌, [], ◌≤◌, length};
ghost use Rattle.meaning.specs.Answers.{refused};
ghost use Rattle.rows.specs.Rows.{in_front};
ghost use Rattle.printing.specs.Printed.{printed, room_for};

pub use outcome::print;
use tables::Answer;

// A refusal by itself.
pub fn refuse(number: u32, line: u32, out: &mut [u8]) -> usize
    requires { room_for 0 ≤ length out.old }
    ensures { (out.new ≡ in_front (printed (refused number line) []) out.old) × (result ≡ length (printed (refused number line) [])) }
{
    let none = [0u32; 1];
    print(Answer::Refused(number, line), 0, &none, out)
}
