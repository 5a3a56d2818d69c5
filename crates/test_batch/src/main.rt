// Batch checks: each block of standard input is a name and a text, and ends before an empty line. The text of a block whose name
// starts with `+` has events only, for the book and the register of the last block before it whose name does not. Of each block the answer, the
// pairs, how many objects and links the register then has, and a checksum of every word of the register's tables and of the list are written; of
// a book also the event list of each rule. Rows are lent for 12 objects, 16 links and 10 events, and 48 words for the list.
#![tactic(auto)]

use batch::Checked;
use cases::line;
use cases::sheet::Sheet;
use std::alloc::{AllocError, Global};
use std::io;
use tables::{Answer, Counts, Refusal};

mod show;

// The words of the tables.
const WORDS: [u32; 8] = [64, 512, 64, 16, 2048, 120, 48, 40];

// The words of the tables for a text that has events only.
const BATCH_WORDS: [u32; 8] = [2, 2, 2, 2, 256, 10, 3, 40];

// How much of the register and of the list is used. A refusal says nothing of them.
fn counts(rt: &impl Print, checked: &Checked, list: &[u32]) -> io::Result<()> {
    if let Answer::Refused(_, _) = checked.answer {
        return Ok(());
    }
    print!(rt; ";")?;
    show::pairs(rt, list, checked.pairs)?;
    print!(rt; "; {} {}", checked.objects, checked.links)
}

// The batch check of tables that were read, on a scratch that is not cleared. Unused rows of the register are not 0.
fn check(rt: &impl Print, n: Counts, sheet: &mut Sheet) -> io::Result<()> {
    let mut scratch_objects = [9u32; 120];
    let mut scratch_links = [9u32; 48];
    let mut list = [7u32; 48];
    soil(&mut sheet.objects, n.objects as usize * 10);
    soil(&mut sheet.links, n.links as usize * 3);
    let checked = batch::check(
        n,
        &sheet.types,
        &sheet.floors,
        &sheet.relationships,
        &sheet.rules,
        &sheet.bodies,
        &mut sheet.objects,
        &mut sheet.links,
        &sheet.events,
        &mut scratch_objects,
        &mut scratch_links,
        &mut list,
    );
    show::answer(rt, checked.answer)?;
    counts(rt, &checked, &list)?;
    let sum = show::checksum(&sheet.objects, &sheet.links, &list);
    println!(rt; "; {sum}")
}

// Writes 7 in every word past the used ones.
fn soil(words: &mut [u32], used: usize) {
    if let Some(unused) = words.get_mut(used..) {
        unused.fill(7);
    }
}

// The event list of each rule.
fn show_lists(rt: &impl Print, n: Counts, sheet: &Sheet) -> io::Result<()> {
    for rule in 0..n.rules {
        let mut list = [0u16; 192];
        let listed = event_list::list(n, &sheet.lent_sheet(), rule, &mut list);
        print!(rt; "{rule}:")?;
        match listed {
            Err(Refusal { number, place }) => print!(rt; " refused {number} {place}")?,
            Ok(count) => show::event_types(rt, &list, count)?,
        }
        println!(rt)?;
    }
    Ok(())
}

// A text with its own book.
fn try_book(rt: &(impl Print + AllocGlobal), text: &[u8]) -> io::Result<()> {
    let mut sheet = Sheet::new(rt.alloc(), WORDS)?;
    match sheet.read(text) {
        Err(
            Refusal {
                number,
                place: line,
            },
        ) => print!(rt; " not read {number} {line}"),
        Ok(n) => {
            check(rt, n, &mut sheet)?;
            show_lists(rt, n, &sheet)
        }
    }
}

// The events of a text that has nothing else: how many there are, or more than any batch has where the text is refused.
fn read_events(alloc: Global, text: &[u8], events: &mut Vec<u32>) -> Result<u32, AllocError> {
    let mut batch = Sheet::new(alloc, BATCH_WORDS)?;
    std::mem::swap(&mut batch.events, &mut *events);
    let outcome = batch.read(text);
    std::mem::swap(&mut batch.events, events);
    match outcome {
        Err(_) => Ok(1000),
        Ok(n) => Ok(n.events),
    }
}

// A batch for the book and the register of another text.
fn try_batch(rt: &(impl Print + AllocGlobal), book: &[u8], batch: &[u8]) -> io::Result<()> {
    let mut sheet = Sheet::new(rt.alloc(), WORDS)?;
    match sheet.read(book) {
        Err(
            Refusal {
                number,
                place: line,
            },
        ) => print!(rt; " not read {number} {line}"),
        Ok(n) => {
            let events = read_events(rt.alloc(), batch, &mut sheet.events)?;
            check(rt, Counts { events, ..n }, &mut sheet)
        }
    }
}

fn main(rt: HostRuntime) -> io::Result<()> {
    let input = io::read_to_string(rt.alloc(), rt.stdin())?;
    let mut book: &[u8] = b"";
    let mut count = 0u64;
    for lines in input.split_inclusive("\n\n") {
        let block = line::block(lines);
        let (name, text) = block.split_once('\n').unwrap_or((block, ""));
        print!(rt; "{name}:")?;
        if name.starts_with('+') {
            try_batch(&rt, book, text.as_bytes())?;
        } else {
            book = text.as_bytes();
            try_book(&rt, book)?;
        }
        count = count.saturating_add(1);
    }
    println!(rt; "{count} cases")
}
