// Batches of events: each block of standard input is a name and a text, and ends before an empty line. Of each text the refusal is written, or
// the type that each event met and the register after the batch, as a text. Rows are lent for 5 objects and 4 links.
#![tactic(auto)]

use cases::line;
use cases::sheet::Sheet;
use std::io;
use std::io::Write;
use tables::{Counts, Refusal};

// The words of the tables.
const WORDS: [u32; 8] = [64, 512, 64, 4, 512, 50, 12, 64];

// The book of a sheet with another register, as a text.
fn show(
    rt: &impl Print,
    n: Counts,
    sheet: &Sheet,
    objects: &[u32],
    links: &[u32],
) -> io::Result<()> {
    let mut out = [0u8; 2048];
    let none = [0u32; 4];
    let shown = tables::Sheet {
        objects,
        links,
        events: &none,
        ..sheet.lent_sheet()
    };
    let written = writer::write(n, &shown, &mut out);
    match written {
        Ok(length) => io::writer(rt).write_all(&out[..out.len().min(length as usize)]),
        Err(Refusal { number, place }) => println!(rt; "not written {number} {place}"),
    }
}

// The events of tables that were read, on a scratch that is not cleared.
fn run(rt: &impl Print, n: Counts, sheet: &Sheet) -> io::Result<()> {
    let mut objects = [7u32; 50];
    let mut links = [7u32; 12];
    let ran = lent_run::run(n, &sheet.lent_sheet(), &mut objects, &mut links);
    let met_types = ran.met;
    let held = ran.held;
    let verdict = ran.verdict;
    match verdict {
        Err(Refusal { number, place }) => println!(rt; "refused {number} {place}"),
        Ok(()) => {
            print!(rt; "met")?;
            for met in met_types.iter().take(n.events as usize) {
                print!(rt; " {met}")?;
            }
            println!(rt)?;
            let end = Counts {
                objects: held.objects,
                links: held.links,
                events: 0,
                ..n
            };
            show(rt, end, sheet, &objects, &links)
        }
    }
}

// One text.
fn try_text(rt: &(impl Print + AllocGlobal), text: &str) -> io::Result<()> {
    let mut sheet = Sheet::new(rt.alloc(), WORDS)?;
    match sheet.read(text.as_bytes()) {
        Err(
            Refusal {
                number,
                place: line,
            },
        ) => println!(rt; "not read {number} {line}"),
        Ok(n) => run(rt, n, &sheet),
    }
}

fn main(rt: HostRuntime) -> io::Result<()> {
    let input = io::read_to_string(rt.alloc(), rt.stdin())?;
    for lines in input.split_inclusive("\n\n") {
        let block = line::block(lines);
        let (name, text) = block.split_once('\n').unwrap_or((block, ""));
        println!(rt; "{name}")?;
        try_text(&rt, text)?;
    }
    Ok(())
}
