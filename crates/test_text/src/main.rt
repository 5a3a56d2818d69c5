// Texts read and written: Book A, every form and event, the largest tables, damaged texts, and each refusal of the reader and the writer.
// The cases are lines of standard input; `stdin` says how they are written.
//
// A text's answer is `ok`, or a refusal's number and line; after `ok/` stands the writer's refusal of tables that the reader takes, or
// 99 where other bytes are written.
#![tactic(auto)]

mod build;
mod judge;
mod lent;

use cases::line::number;
use cases::sheet::{LIMITS, Sheet};
use std::io;

// The text and the tables of a case, and the tables marked; how many words were wrong so far, and how many cases there were.
#[derive(Drop)]
pub struct Trial {
    text: Vec<u8>,
    sheet: Sheet,
    marks: Sheet,
    wrong: usize,
    cases: u32,
}

impl Trial {
    // No text, and no word in the tables.
    fn clear(&mut self) {
        self.text.clear();
        lent::fill(&mut self.sheet, 0);
    }

    // A case begins: all rows are lent.
    fn begin(&mut self, rt: &impl Print, name: &str) -> io::Result<()> {
        self.sheet.lent = LIMITS;
        print!(rt; "{}: ", name.trim_start())
    }

    fn add(&mut self, part: &str) -> io::Result<()> {
        self.text.extend_from_slice(part.as_bytes())?;
        Ok(())
    }

    // A line that is a word: it says what is lent, used or put into a table, or asks about the text or the tables.
    fn order(&mut self, rt: &(impl Print + AllocGlobal), line: &str) -> io::Result<()> {
        match line.split_whitespace().next().unwrap_or("") {
            "ask" => {
                self.ask(rt)?;
                println!(rt)
            }
            "counted" => self.ask_and_count(rt),
            "write" => self.write(rt, line),
            "verify" => self.verify(rt.alloc(), rt),
            "get" => {
                let _ = self.sheet.read(&self.text);
                Ok(())
            }
            "lent" => {
                self.sheet.lend(line);
                Ok(())
            }
            "used" => {
                self.sheet.use_rows(line);
                Ok(())
            }
            _ => {
                if self.sheet.change(line) {
                    Ok(())
                } else {
                    println!(rt; "not in the tables: {line}")
                }
            }
        }
    }

    fn line(&mut self, rt: &(impl Print + AllocGlobal), line: &str) -> io::Result<()> {
        let Some((sign, rest)) = line.split_at_checked(1) else {
            return Ok(());
        };
        match sign {
            "#" => Ok(()),
            ":" => println!(rt; "{}", rest.trim_start()),
            "~" => {
                self.clear();
                Ok(())
            }
            "=" => {
                self.clear();
                self.begin(rt, rest)
            }
            "&" => self.begin(rt, rest),
            "|" => {
                self.add(rest)?;
                self.add("\n")
            }
            "+" => self.add(rest),
            "*" => build::repeat(&mut self.text, rest),
            "%" => build::many(&mut self.text, rest),
            "-" => {
                build::shorten(&mut self.text, number(rest));
                Ok(())
            }
            "@" => build::splice(&mut self.text, rest),
            _ => self.order(rt, line),
        }
    }
}

fn main(rt: HostRuntime) -> io::Result<()> {
    let input = io::read_to_string(rt.alloc(), rt.stdin())?;
    let mut marks = Sheet::new(rt.alloc(), LIMITS)?;
    lent::mark(&mut marks);
    let mut trial = Trial {
        text: Vec::new(rt.alloc()),
        sheet: Sheet::new(rt.alloc(), LIMITS)?,
        marks,
        wrong: 0,
        cases: 0,
    };
    for line in input.lines() {
        trial.line(&rt, line)?;
    }
    println!(rt; "words wrong {}\ncases {}", trial.wrong, trial.cases)
}
