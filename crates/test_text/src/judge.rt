// What is said of a text or of tables.
use crate::{Trial, lent};
use cases::line::numbers;
use cases::sheet::{LIMITS, Sheet};
use std::alloc::Global;
use std::io;
use tables::{Counts, Refusal};

// One byte more than any text here has.
const ROOM: usize = 65538;

// The byte that stands everywhere before a text is written.
const BEFORE: u8 = 170;

// How many bytes of a text stand not at the same place of another.
fn unlike(text: &[u8], out: &[u8]) -> usize {
    text.iter().zip(out).filter(|(a, b)| *a != *b).count()
}

// How many bytes from a place on are not as they were.
fn changed_from(out: &[u8], from: u32) -> usize {
    out.iter()
        .skip(from as usize)
        .filter(|b| **b != BEFORE)
        .count()
}

// The rows of the seven sections.
fn say_rows(rt: &impl Print, n: Counts) -> io::Result<()> {
    print!(rt;
        " {} {} {} {} {} {} {}",
        n.types, n.floors, n.relationships, n.rules, n.objects, n.links, n.events
    )
}

impl Trial {
    fn count(&mut self, wrong: usize) {
        self.wrong = self.wrong.saturating_add(wrong);
        self.cases = self.cases.saturating_add(1);
    }

    // Whether the writer takes the tables that were read, and writes the same bytes.
    fn judge_writer(&self, rt: &impl Print) -> io::Result<()> {
        let mut out = [0u8; ROOM];
        match lent::write(&self.sheet, &mut out) {
            Err(Refusal { number, place }) => print!(rt; "ok/{number}:{place}"),
            Ok(length) => {
                if out.get(..length as usize) == Some(self.text.as_slice()) {
                    print!(rt; "ok")
                } else {
                    print!(rt; "ok/99:0")
                }
            }
        }
    }

    // `ask`: reads the text into marked tables. Words are wrong that a refusal changed, or that are not 0 past the used rows.
    pub fn ask(&mut self, rt: &impl Print) -> io::Result<()> {
        lent::take_over(&self.marks, &mut self.sheet);
        match self.sheet.read(&self.text) {
            Err(
                Refusal {
                    number,
                    place: line,
                },
            ) => {
                let wrong = lent::differing(&self.sheet, &self.marks);
                self.count(wrong);
                print!(rt; "{number}:{line}")
            }
            Ok(_) => {
                let wrong = lent::past(&self.sheet);
                self.count(wrong);
                self.judge_writer(rt)
            }
        }
    }

    // `counted`: the same, with the rows of each section and the words that were wrong so far.
    pub fn ask_and_count(&mut self, rt: &impl Print) -> io::Result<()> {
        self.ask(rt)?;
        say_rows(rt, self.sheet.used)?;
        println!(rt; ", words wrong {}", self.wrong)
    }

    // `write N`: writes the tables into so many bytes, and says what stands in them and after them.
    pub fn write(&mut self, rt: &impl Print, order: &str) -> io::Result<()> {
        let [bytes] = numbers::<1>(order);
        let mut out = [BEFORE; ROOM];
        let end = out.len().min(bytes as usize);
        let written = lent::write(&self.sheet, &mut out[..end]);
        self.count(0);
        match written {
            Err(Refusal { number, place }) => {
                let changed = changed_from(&out, 0);
                println!(rt; "{number}:{place}, bytes changed {changed}")
            }
            Ok(length) => {
                let unlike = unlike(&self.text, &out);
                let changed = changed_from(&out, length);
                println!(rt; "{length} bytes, {unlike} unlike, past them changed {changed}")
            }
        }
    }

    // What is written of the tables is the text from now on.
    fn rewrite(&mut self) -> io::Result<()> {
        let mut out = [0u8; ROOM];
        self.count(0);
        self.text.clear();
        if let Ok(length) = lent::write(&self.sheet, &mut out) {
            let written = out.get(..length as usize).unwrap_or(&out);
            self.text.extend_from_slice(written)?;
        }
        Ok(())
    }

    // `verify`: the same, and it is read into other tables, which are compared with those that are there.
    pub fn verify(&mut self, alloc: Global, rt: &impl Print) -> io::Result<()> {
        self.rewrite()?;
        let mut again = Sheet::new(alloc, LIMITS)?;
        lent::fill(&mut again, 7);
        let _ = again.read(&self.text);
        print!(rt; "counts")?;
        say_rows(rt, again.used)?;
        println!(rt;
            "\nwords differing {}",
            lent::differing(&again, &self.sheet)
        )
    }
}
