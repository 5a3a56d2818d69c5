// The program of document 01, "Book A": reads a text from standard input, checks its batch, and prints the answer and the listed pairs.
#![tactic(auto)]

use programs::Failure;

fn main(rt: HostRuntime) -> Result<(), Failure> {
    programs::check(&mut rt.stdin(), &mut rt.stdout())
}
