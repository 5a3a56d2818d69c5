// What is counted, by its slot: how often each operator occurs, by its code, and then the rest.
#[derive(Drop)]
pub struct Tally {
    slots: [u32; 40],
}

// The slots after the operators.
#[derive(Clone, Copy)]
pub enum Slot {
    Books = 23,
    Accepted = 24,
    Later = 25,
    Rules = 26,
    Objects = 27,
    Links = 28,
    Pairs = 29,
    Under = 30,
    Broken = 31,
    Absent = 32,
    Depth = 33,
    Scope = 34,
    Named = 35,
    Wrong = 36,
    Cases = 37,
    Floored = 38,
    Below = 39,
}

impl Tally {
    pub fn new() -> Tally {
        Tally { slots: [0; 40] }
    }

    pub fn of(&self, slot: u32) -> u32 {
        self.slots.get(slot as usize).copied().unwrap_or(0)
    }

    // So many more in a slot.
    pub fn add(&mut self, slot: Slot, more: u32) {
        self.add_at(slot as u32, more);
    }

    fn add_at(&mut self, slot: u32, more: u32) {
        if let Some(n) = self.slots.get_mut(slot as usize) {
            *n = n.saturating_add(more);
        }
    }

    // One more in a slot if something is so.
    pub fn count_if(&mut self, slot: Slot, so: bool) {
        self.add(slot, u32::from(so));
    }

    // An operator, by its code.
    pub fn count_operator(&mut self, code: u32) {
        self.add_at(code, 1);
    }

    // The greatest so far in a slot.
    pub fn raise(&mut self, slot: Slot, seen: u32) {
        if let Some(n) = self.slots.get_mut(slot as usize) {
            *n = seen.max(*n);
        }
    }
}
