// What a case prints: answers, pairs, event types, and one number that every lent word changes.
use std::io;
use tables::Answer;

pub fn answer(rt: &impl Print, a: Answer) -> io::Result<()> {
    match a {
        Answer::Accepted => print!(rt; " accepted"),
        Answer::Broken(rule, id) => print!(rt; " broken {rule} {id}"),
        Answer::Refused(number, place) => print!(rt; " refused {number} {place}"),
    }
}

// The first pairs of a list.
pub fn pairs(rt: &impl Print, list: &[u32], count: u32) -> io::Result<()> {
    for pair in list.chunks_exact(2).take(count as usize) {
        if let [rule, id] = pair {
            print!(rt; " {rule}:{id}")?;
        }
    }
    Ok(())
}

// The first event types of a list.
pub fn event_types(rt: &impl Print, list: &[u16], count: u32) -> io::Result<()> {
    for event_type in list.chunks_exact(3).take(count as usize) {
        if let [kind, number, cell] = event_type {
            print!(rt; " {kind},{number},{cell}")?;
        }
    }
    Ok(())
}

fn mixed(total: u64, word: u32) -> u64 {
    (total % 4294967291) * 65599 + u64::from(word)
}

// What the register and the list hold, as one number.
pub fn checksum(objects: &[u32], links: &[u32], list: &[u32]) -> u64 {
    let words = objects.iter().chain(links).chain(list);
    words.fold(1, |total, word| mixed(total, *word)) % 4294967291
}
