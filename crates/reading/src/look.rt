// The text looked through, line by line: the first refusal, or how many rows each section has.
ghost use Rattle.std.specs.Prelude.{◌≡◌, ◌&&◌, ◌||◌, cond, suc, ◌+◌, min, ◌≤◌, ◌<◌, ltb, eqb, length, get_or, set};
ghost use Rattle.meaning.specs.Limits.{max_forms};
ghost use Rattle.tables.specs.Layouts.{limit_of, section_count};
ghost use Rattle.text.specs.Names.{type_name, rule_name};
ghost use Rattle.text.specs.Texts.{max_text, reading};
ghost use Rattle.reading.specs.Looks.{Shown};

use line_reader::line::read_line;
use meaning::{
    MAX_EVENTS, MAX_FLOORS, MAX_FORMS, MAX_LINKS, MAX_OBJECTS, MAX_RELATIONSHIPS, MAX_RULES,
    MAX_TYPES,
};
use tables::Refusal;
use text::{RULE_SECTION, TYPE_SECTION};

// What was seen: the rows of each section, and the cells of each type.
#[derive(Clone, Copy)]
pub struct Seen {
    pub counts: [u32; 7],
    pub cells: [u32; 32],
}

const LIMITS: [u32; 7] = [
    MAX_TYPES,
    MAX_FLOORS,
    MAX_RELATIONSHIPS,
    MAX_RULES,
    MAX_OBJECTS,
    MAX_LINKS,
    MAX_EVENTS,
];

// Whether there is no row left for a line of the section, or its body has too many forms.
fn is_full(section: u32, forms: u32, counts: &[u32; 7], room: &[usize; 7]) -> bool
    requires { section < section_count }
    ensures { result ≡ (ltb (min (limit_of section) (get_or room.now section 0)) (suc (get_or counts.now section 0)) || (eqb section rule_name && ltb max_forms forms)) }
{
    let at = section as usize;
    let most = room[at].min(LIMITS[at] as usize);
    most <= counts[at] as usize || section == RULE_SECTION && MAX_FORMS < forms
}

// The types' cells, with those of one more where the line is a type's.
pub fn more_cells(cells: &[u32; 32], types: u32, section: u32, size: u32) -> [u32; 32]
    ensures { result ≡ cond (eqb section type_name && ltb types 32) (set cells.now types size) cells.now }
{
    let mut more = *cells;
    if section == TYPE_SECTION && types < 32 {
        more[types as usize] = size;
    }
    more
}

// The rows of each section, with one more of a section.
pub fn more_rows(counts: &[u32; 7], section: u32) -> [u32; 7]
    requires { (section < section_count) × (get_or counts.now section 0 < 4096) }
    ensures { result ≡ set counts.now section (get_or counts.now section 0 + 1) }
{
    let mut more = *counts;
    more[section as usize] += 1;
    more
}

// Looks the text through: a refusal's place is its line. `room` has the rows lent for each section.
pub fn look(text: &[u8], room: &[usize; 7]) -> Result<Seen, Refusal>
    requires { length text.now ≤ max_text }
    ensures { Shown (reading room.now text.now) result }
{
    let mut counts = [0u32; 7];
    let mut cells = [0u32; 32];
    let mut section: u32 = 0;
    let mut at: usize = 0;
    let mut n: u32 = 1;
    while at < text.len() {
        if !lexical::is_ended(text, at) {
            return Err(Refusal {
                number: 1,
                place: n,
            });
        }
        let line = lexical::line(text, at);
        let row = read_line(line, counts[0], counts[2], counts[3], &cells, section);
        let Some(row) = row else {
            return Err(Refusal {
                number: 1,
                place: n,
            });
        };
        section = row.section;
        let size = row.words[1];
        if is_full(section, size, &counts, room) {
            return Err(Refusal {
                number: 2,
                place: n,
            });
        }
        cells = more_cells(&cells, counts[0], section, size);
        counts = more_rows(&counts, section);
        at = lexical::line_end(text, at) + 1;
        n += 1;
    }
    Ok(Seen { counts, cells })
}
