// The eight tables of a case, how many words of each are lent, and how many rows are used. Wherever all tables stand together their order is: types,
// floors, relationships, rules, bodies, objects, links, events.
use crate::line;
use std::alloc::{AllocError, Global};
use tables::{Counts, Refusal};

// The words of the most rows that the limits allow.
pub const LIMITS: [u32; 8] = [64, 512, 64, 64, 8192, 10240, 12288, 1024];

pub const TABLES: [&str; 8] = [
    "types",
    "floors",
    "relationships",
    "rules",
    "bodies",
    "objects",
    "links",
    "events",
];

// Where each table begins in a row of all words, one table after the other, each with the words of the most rows that the limits allow. What a
// table has past those is the next one's too.
pub const BASES: [usize; 8] = [0, 64, 576, 640, 704, 8896, 19136, 31424];

pub const NO_ROWS: Counts = Counts {
    types: 0,
    floors: 0,
    relationships: 0,
    rules: 0,
    objects: 0,
    links: 0,
    events: 0,
};

#[derive(Drop)]
pub struct Sheet {
    pub types: Vec<u32>,
    pub floors: Vec<u32>,
    pub relationships: Vec<u32>,
    pub rules: Vec<u32>,
    pub bodies: Vec<u32>,
    pub objects: Vec<u32>,
    pub links: Vec<u32>,
    pub events: Vec<u32>,
    pub lent: [u32; 8],
    pub used: Counts,
}

// The first words of a table, as many as it has.
fn part(table: &[u32], words: u32) -> &[u32] {
    table.get(..words as usize).unwrap_or(table)
}

// Where the word of `TABLE PLACE`, with which a line begins, stands in that row.
fn place(line: &str) -> Option<usize> {
    let name = line.split_whitespace().next()?;
    let [at] = line::numbers::<1>(line);
    let (_, base) = TABLES.iter().zip(BASES).find(|(table, _)| **table == name)?;
    Some(base.saturating_add(at as usize))
}

fn part_mut(table: &mut [u32], words: u32) -> &mut [u32] {
    let end = table.len().min(words as usize);
    &mut table[..end]
}

fn counts(rows: [u32; 7]) -> Counts {
    let [types, floors, relationships, rules, objects, links, events] = rows;
    Counts {
        types,
        floors,
        relationships,
        rules,
        objects,
        links,
        events,
    }
}

impl Sheet {
    // Tables of so many words, all 0 and all lent.
    pub fn new(alloc: Global, words: [u32; 8]) -> Result<Sheet, AllocError> {
        let [
            types,
            floors,
            relationships,
            rules,
            bodies,
            objects,
            links,
            events,
        ] = words;
        Ok(Sheet {
            types: vec![in alloc; 0; types as usize]?,
            floors: vec![in alloc; 0; floors as usize]?,
            relationships: vec![in alloc; 0; relationships as usize]?,
            rules: vec![in alloc; 0; rules as usize]?,
            bodies: vec![in alloc; 0; bodies as usize]?,
            objects: vec![in alloc; 0; objects as usize]?,
            links: vec![in alloc; 0; links as usize]?,
            events: vec![in alloc; 0; events as usize]?,
            lent: words,
            used: NO_ROWS,
        })
    }

    // Reads a text into the tables, as far as they are lent. The rows used are noted, none where the text is refused.
    pub fn read(&mut self, text: &[u8]) -> Result<Counts, Refusal> {
        let [
            types,
            floors,
            relationships,
            rules,
            bodies,
            objects,
            links,
            events,
        ] = self.lent;
        let outcome = reader::read(
            text,
            part_mut(&mut self.types, types),
            part_mut(&mut self.floors, floors),
            part_mut(&mut self.relationships, relationships),
            part_mut(&mut self.rules, rules),
            part_mut(&mut self.bodies, bodies),
            part_mut(&mut self.objects, objects),
            part_mut(&mut self.links, links),
            part_mut(&mut self.events, events),
        );
        self.used = match outcome {
            Err(_) => NO_ROWS,
            Ok(n) => n,
        };
        outcome
    }

    // The table of a name.
    pub fn table(&mut self, name: &str) -> Option<&mut [u32]> {
        match name {
            "types" => Some(&mut self.types),
            "floors" => Some(&mut self.floors),
            "relationships" => Some(&mut self.relationships),
            "rules" => Some(&mut self.rules),
            "bodies" => Some(&mut self.bodies),
            "objects" => Some(&mut self.objects),
            "links" => Some(&mut self.links),
            "events" => Some(&mut self.events),
            _ => None,
        }
    }

    // The word at a place in that row, if there is one.
    fn word(&self, place: usize) -> Option<u32> {
        for (table, base) in self.tables().iter().zip(BASES) {
            if let Some(word) = table.get(place.wrapping_sub(base)) {
                return Some(*word);
            }
        }
        None
    }

    // Puts a word there, in each table that has the place. Answers the one that stood there, if there is one.
    fn put(&mut self, place: usize, value: u32) -> Option<u32> {
        let mut old = None;
        for (name, base) in TABLES.iter().zip(BASES) {
            if let Some(word) = self
                .table(name)
                .and_then(|t| t.get_mut(place.wrapping_sub(base)))
            {
                old = Some(std::mem::replace(word, value));
            }
        }
        old
    }

    // So many words, from a place on and a step apart, become the word so far before them, more by a number. Answers whether all are there.
    fn chain(&mut self, from: usize, times: u32, step: usize, back: usize, more: u32) -> bool {
        let mut at = from;
        let mut are_there = true;
        for _ in 0..times {
            let before = self.word(at.wrapping_sub(back)).unwrap_or(0);
            are_there &= self.put(at, before.wrapping_add(more)).is_some();
            at = at.saturating_add(step);
        }
        are_there
    }

    // `TABLE PLACE VALUE` puts a word, `TABLE PLACE TIMES STEP BACK MORE` makes words of others, on into the next tables. Answers whether all are
    // there.
    pub fn change(&mut self, line: &str) -> bool {
        let [_, value, step, back, more] = line::numbers::<5>(line);
        let Some(at) = place(line) else {
            return false;
        };
        if line.split_whitespace().count() > 3 {
            self.chain(at, value, step as usize, back as usize, more)
        } else {
            self.put(at, value).is_some()
        }
    }

    // Puts a word at `TABLE PLACE`, with which a line begins. Answers the one that stood there, if there is one.
    pub fn replace(&mut self, line: &str, value: u32) -> Option<u32> {
        self.put(place(line)?, value)
    }

    // `lent T F R U B O L E`: so many words of each table are lent.
    pub fn lend(&mut self, line: &str) {
        self.lent = line::numbers(line);
    }

    // `used T F R U O L E`: so many rows of each section are used.
    pub fn use_rows(&mut self, line: &str) {
        self.used = counts(line::numbers(line));
    }

    // The tables as far as they are lent.
    pub fn lent(&self) -> [&[u32]; 8] {
        let [
            types,
            floors,
            relationships,
            rules,
            bodies,
            objects,
            links,
            events,
        ] = self.lent;
        [
            part(&self.types, types),
            part(&self.floors, floors),
            part(&self.relationships, relationships),
            part(&self.rules, rules),
            part(&self.bodies, bodies),
            part(&self.objects, objects),
            part(&self.links, links),
            part(&self.events, events),
        ]
    }

    // The same, as the library takes them.
    pub fn lent_sheet(&self) -> tables::Sheet<'_> {
        let [
            types,
            floors,
            relationships,
            rules,
            bodies,
            objects,
            links,
            events,
        ] = self.lent();
        tables::Sheet {
            types,
            floors,
            relationships,
            rules,
            bodies,
            objects,
            links,
            events,
        }
    }

    // The whole tables.
    pub fn tables(&self) -> [&[u32]; 8] {
        [
            &self.types,
            &self.floors,
            &self.relationships,
            &self.rules,
            &self.bodies,
            &self.objects,
            &self.links,
            &self.events,
        ]
    }
}
