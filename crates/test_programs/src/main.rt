// The programs' own reading, on the files of `data`: texts as long as a program takes, a byte longer and more, and a folder, which cannot be read.
#![tactic(auto)]

use park_answers::Asked;
use programs::Failure;
use std::fs;
use std::fs::File;

// What a program is given: its name is written, and it is opened.
fn opened(rt: &HostRuntime, name: &str) -> Result<File, Failure> {
    rt.println(name).map_err(Failure::Writing)?;
    fs::open(rt, name).map_err(Failure::Reading)
}

// A folder fails to be read, and nothing is written of it.
fn unread(rt: &HostRuntime, outcome: Result<(), Failure>) -> Result<(), Failure> {
    match outcome {
        Ok(()) => rt.println("read").map_err(Failure::Writing),
        Err(Failure::Reading(_)) => Ok(()),
        Err(failure) => Err(failure),
    }
}

fn main(rt: HostRuntime) -> Result<(), Failure> {
    let mut out = rt.stdout();
    programs::check(&mut opened(&rt, "check_8192.txt")?, &mut out)?;
    programs::check(&mut opened(&rt, "check_8193.txt")?, &mut out)?;
    programs::check(&mut opened(&rt, "check_9000.txt")?, &mut out)?;
    unread(&rt, programs::check(&mut opened(&rt, ".")?, &mut out))?;
    programs::park(Asked::Full, &mut opened(&rt, "park_65536.txt")?, &mut out)?;
    programs::park(Asked::Full, &mut opened(&rt, "park_65537.txt")?, &mut out)?;
    unread(
        &rt,
        programs::park(Asked::Full, &mut opened(&rt, ".")?, &mut out),
    )
}
