// The proved full check beside a plain one, on drawn books and registers: the full check, and every rule at every object. The books are
// lines of standard input; `stdin` says how they are written.
#![tactic(auto)]

mod compare;
mod fill;
mod plain;
mod table_rows;
mod tally;
mod world;

use cases::line::numbers;
use cases::sheet::Sheet;
use std::io;
use tally::Tally;

// The words of the tables: as many as the largest book and register here have.
const WORDS: [u32; 8] = [10, 26, 8, 10, 1280, 140, 72, 0];

// `print SLOT NAME`: a number that was counted, after its name.
fn print(rt: &impl Print, line: &str, tally: &Tally) -> io::Result<()> {
    let [slot] = numbers::<1>(line);
    let name = line.splitn(3, ' ').nth(2).unwrap_or("");
    println!(rt; "{name} {}", tally.of(slot))
}

// A line: a word of the schema, a part of a book or of its register, or an order.
fn one_line(
    rt: &(impl Print + AllocGlobal),
    line: &str,
    sheet: &mut Sheet,
    tally: &mut Tally,
) -> io::Result<()> {
    match line.split_whitespace().next().unwrap_or("") {
        "types" | "relationships" => {
            if !sheet.change(line) {
                println!(rt; "not in the tables: {line}")?;
            }
        }
        "book" => fill::begin(sheet),
        "rule" => fill::rule(line, sheet),
        "floor" => fill::floor(line, sheet),
        "object" => fill::object(line, sheet),
        "link" => fill::link(line, sheet),
        "ask" => compare::compare(rt.alloc(), sheet, tally)?,
        "print" => print(rt, line, tally)?,
        _ => {}
    }
    Ok(())
}

fn main(rt: HostRuntime) -> io::Result<()> {
    let input = io::read_to_string(rt.alloc(), rt.stdin())?;
    let mut sheet = Sheet::new(rt.alloc(), WORDS)?;
    let mut tally = Tally::new();
    for line in input.lines() {
        one_line(&rt, line, &mut sheet, &mut tally)?;
    }
    Ok(())
}
