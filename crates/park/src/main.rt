// Reads the text of a park from standard input and prints what the first argument asks. Alone or with another word it says how to use it.
#![tactic(auto)]

use park_answers::words::asked_by;
use programs::Failure;
use std::io;
use std::rt::Env;

fn usage(rt: &impl Print) -> io::Result<()> {
    rt.println(
        "park WORD < FILE reads the text of a park: its book, its register and the events of one visit",
    )?;
    rt.println("  check   the answer of the visit, and the pairs that were looked at")?;
    rt.println(
        "  full    the answer for the whole register as it stands; the events are not looked at",
    )?;
    rt.println("  events  the event list of each rule, a line each")?;
    rt.println("  after   the text for the next visit, if this one is accepted; else as check")?;
    rt.println("docs/FITTER.md says what a text holds, and what each refusal means")
}

fn main(rt: HostRuntime) -> Result<(), Failure> {
    // a longer word is none of the four, and comes as no bytes
    let mut word = [0u8; 6];
    let length = rt.arg(1, &mut word).unwrap_or(0);
    match asked_by(&word[..length]) {
        Some(asked) => programs::park(asked, &mut rt.stdin(), &mut rt.stdout()),
        None => usage(&rt).map_err(Failure::Writing),
    }
}
