// Refusals 2, 6, 3, 4 and 5 of lent tables. Each of 3, 4 and 5 is met at a first, a middle and a last row of the largest tables that the
// limits allow. The cases are lines of standard input; `stdin` says how they are written.
#![tactic(auto)]

use cases::line::numbers;
use cases::sheet::Sheet;
use std::io;
use tables::Refusal;

// The words of the tables: of the first four a row more than the limits allow.
const WORDS: [u32; 8] = [66, 514, 66, 66, 8192, 10240, 12288, 1024];

#[derive(Drop)]
struct Trial {
    sheet: Sheet,
    scratch_short: bool,
    cases: u32,
}

fn show(rt: &impl Print, v: Result<(), Refusal>) -> io::Result<()> {
    match v {
        Ok(()) => println!(rt; "clear"),
        Err(Refusal { number, place }) => println!(rt; "refused {number} {place}"),
    }
}

impl Trial {
    // What the checks say.
    fn ask(&self) -> Result<(), Refusal> {
        checks::check(
            self.sheet.used,
            &self.sheet.lent_sheet(),
            self.scratch_short,
        )
    }

    fn case(&mut self, rt: &impl Print, name: &str) -> io::Result<()> {
        self.cases = self.cases.saturating_add(1);
        print!(rt; "{name}: ")?;
        show(rt, self.ask())
    }

    // `TABLE PLACE VALUE: NAME`, where the word is another for this case.
    fn case_of_a_word(&mut self, rt: &impl Print, order: &str, name: &str) -> io::Result<()> {
        let [_, value] = numbers::<2>(order);
        let Some(old) = self.sheet.replace(order, value) else {
            return println!(rt; "not in the tables: {order}");
        };
        self.case(rt, name)?;
        self.sheet.replace(order, old);
        Ok(())
    }

    // An order about what is lent, used or too short, if it is one.
    fn settle(&mut self, order: &str) -> bool {
        match order.split_whitespace().next() {
            Some("lent") => self.sheet.lend(order),
            Some("used") => self.sheet.use_rows(order),
            Some("scratch") => self.scratch_short = numbers(order) == [1],
            _ => return false,
        }
        true
    }

    // A heading, a comment, an order, or an order and the name of a case.
    fn line(&mut self, rt: &impl Print, line: &str) -> io::Result<()> {
        if let Some(heading) = line.strip_prefix(": ") {
            return println!(rt; "{heading}");
        }
        if line.starts_with('#') {
            return Ok(());
        }
        let Some((order, name)) = line.split_once(": ") else {
            if !self.settle(line) && !self.sheet.change(line) {
                println!(rt; "not in the tables: {line}")?;
            }
            return Ok(());
        };
        if self.settle(order) {
            self.case(rt, name)
        } else {
            self.case_of_a_word(rt, order, name)
        }
    }
}

fn main(rt: HostRuntime) -> io::Result<()> {
    let input = io::read_to_string(rt.alloc(), rt.stdin())?;
    let mut trial = Trial {
        sheet: Sheet::new(rt.alloc(), WORDS)?,
        scratch_short: false,
        cases: 0,
    };
    for line in input.lines() {
        trial.line(&rt, line)?;
    }
    println!(rt; "cases {}", trial.cases)
}
