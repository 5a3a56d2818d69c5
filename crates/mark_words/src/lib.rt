// Event types read off marks, as words.
#![tactic(auto)]

ghost use Rattle.std.specs.Prelude.{◌≡◌, ◌++◌, ◌+◌, ◌*◌, ◌≤◌, ◌<◌, length, take, drop};
ghost use Rattle.type_marks.specs.Marks.{places, words_at};
ghost use Rattle.mark_words.specs.Places.{marked_below, place_words};
ghost use Rattle.rows.specs.Rows.{in_front};

const PLACES: usize = 1792;

// How many event types are marked.
pub fn count(marks: &[bool; 1792]) -> u32
    ensures { result ≡ length (marked_below marks.now places) }
{
    let mut n: u32 = 0;
    for place in 0..PLACES {
        if marks[place] {
            n += 1;
        }
    }
    n
}

// Writes the three words of the event type at a place: kind, number and cell.
fn put(place: usize, at: usize, list: &mut [u16])
    requires { (place < places) × (at + 3 ≤ length list.old) }
    ensures { list.new ≡ take at list.old ++ words_at place ++ drop (at + 3) list.old }
{
    let kind = place / 256;
    let number = place / 8 % 32;
    let cell = place % 8;
    list[at] = kind as u16;
    list[at + 1] = number as u16;
    list[at + 2] = cell as u16;
}

// Writes the words of the marked event types, in the order of places.
pub fn write(marks: &[bool; 1792], list: &mut [u16])
    requires { 3 * length (marked_below marks.now places) ≤ length list.old }
    ensures { list.new ≡ in_front (place_words (marked_below marks.now places)) list.old }
{
    let mut at: usize = 0;
    for place in 0..PLACES {
        if marks[place] {
            put(place, at, list);
            at += 3;
        }
    }
}
