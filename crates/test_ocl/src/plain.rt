// The plain evaluator. Every set is made whole before it is used, both parts of every form are evaluated, and a quantifier looks at every
// member. A value is one word: a truth is 0 or 1, a number is its two's complement, and a set is one bit for each object's row.
use crate::world::{World, has, wide, with};
use std::alloc::{AllocError, Global};

// A form with its parts. The second part of `Over` has a new variable.
#[derive(Drop)]
pub enum Form {
    Leaf(Leaf),
    One(OfOne, Box<Form>),
    Two(OfTwo, Box<Form>, Box<Form>),
    Over(Over, Box<Form>, Box<Form>),
}

// Variable and type, a number, variable and cell, variable and role, a type.
#[derive(Clone, Copy)]
pub enum Leaf {
    Kind(u32, u32),
    Number(u32),
    Cell(u32, u32),
    Role(u32, u32),
    All(u32),
}

#[derive(Clone, Copy)]
pub enum OfOne {
    Not,
    Size,
    Sum(u32),
}

#[derive(Clone, Copy)]
pub enum OfTwo {
    LessOrEqual,
    Less,
    Equal,
    Unequal,
    GreaterOrEqual,
    Greater,
    And,
    Or,
    Xor,
    Implies,
    Add,
    Subtract,
}

#[derive(Clone, Copy)]
pub enum Over {
    Forall,
    Exists,
    Select,
}

fn leaf_of(code: u32, x: u32, y: u32) -> Option<Leaf> {
    match code {
        13 => Some(Leaf::Kind(x, y)),
        14 => Some(Leaf::Number(x)),
        15 => Some(Leaf::Cell(x, y)),
        20 => Some(Leaf::Role(x, y)),
        21 => Some(Leaf::All(x)),
        _ => None,
    }
}

fn of_one(code: u32, x: u32) -> Option<OfOne> {
    match code {
        6 => Some(OfOne::Not),
        16 => Some(OfOne::Size),
        17 => Some(OfOne::Sum(x)),
        _ => None,
    }
}

fn of_two(code: u32) -> Option<OfTwo> {
    match code {
        0 => Some(OfTwo::LessOrEqual),
        1 => Some(OfTwo::Less),
        2 => Some(OfTwo::Equal),
        3 => Some(OfTwo::Unequal),
        4 => Some(OfTwo::GreaterOrEqual),
        5 => Some(OfTwo::Greater),
        7 => Some(OfTwo::And),
        8 => Some(OfTwo::Or),
        9 => Some(OfTwo::Xor),
        10 => Some(OfTwo::Implies),
        18 => Some(OfTwo::Add),
        19 => Some(OfTwo::Subtract),
        _ => None,
    }
}

fn over_of(code: u32) -> Option<Over> {
    match code {
        11 => Some(Over::Forall),
        12 => Some(Over::Exists),
        22 => Some(Over::Select),
        _ => None,
    }
}

// The form of a row; its parts are the last forms of those that belong to no other form yet. None where a part is missing.
fn form_of(alloc: Global, row: [u32; 4], free: &mut Vec<Form>) -> Result<Option<Form>, AllocError> {
    let [code, x, y, _] = row;
    if let Some(leaf) = leaf_of(code, x, y) {
        return Ok(Some(Form::Leaf(leaf)));
    }
    let Some(last) = free.pop() else {
        return Ok(None);
    };
    let last = Box::new(alloc, last)?;
    if let Some(of_one) = of_one(code, x) {
        return Ok(Some(Form::One(of_one, last)));
    }
    let Some(first) = free.pop() else {
        return Ok(None);
    };
    let first = Box::new(alloc, first)?;
    Ok(match over_of(code) {
        Some(over) => Some(Form::Over(over, first, last)),
        None => of_two(code).map(|of_two| Form::Two(of_two, first, last)),
    })
}

// The tree of a body's rows.
pub fn plant(alloc: Global, body: &[[u32; 4]]) -> Result<Option<Form>, AllocError> {
    let mut free = Vec::new(alloc);
    for row in body {
        if let Some(form) = form_of(alloc, *row, &mut free)? {
            free.push(form)?;
        }
    }
    Ok(free.pop())
}

fn truth(b: bool) -> u64 {
    u64::from(b)
}

// How many members a set has.
pub fn members(set: u64) -> u32 {
    set.count_ones()
}

// The rows that the variables stand for, variable 0 first.
type Variables = [u32; 8];

fn variable(vars: &Variables, v: u32) -> u32 {
    vars[(v % 8) as usize]
}

fn bound(vars: &Variables, v: u32, row: u32) -> Variables {
    let mut more = *vars;
    more[(v % 8) as usize] = row;
    more
}

impl Leaf {
    fn value(self, w: &World, vars: &Variables) -> u64 {
        match self {
            Leaf::Kind(x, t) => truth(has(w.all(t), variable(vars, x))),
            Leaf::Number(n) => wide(n),
            Leaf::Cell(x, cell) => w.cell(variable(vars, x), cell),
            Leaf::Role(x, role) => w.role(variable(vars, x), role),
            Leaf::All(t) => w.all(t),
        }
    }

    // One bit for the variable that it names.
    fn named(self) -> u64 {
        match self {
            Leaf::Kind(x, _) | Leaf::Cell(x, _) | Leaf::Role(x, _) => with(0, x),
            Leaf::Number(_) | Leaf::All(_) => 0,
        }
    }
}

// The sum of a cell over a set.
fn sum(w: &World, set: u64, cell: u32) -> u64 {
    let mut n = 0u64;
    for row in 0..16 {
        if has(set, row) {
            n = n.wrapping_add(w.cell(row, cell));
        }
    }
    n
}

impl OfOne {
    fn value(self, w: &World, a: u64) -> u64 {
        match self {
            OfOne::Not => truth(a == 0),
            OfOne::Size => u64::from(members(a)),
            OfOne::Sum(cell) => sum(w, a, cell),
        }
    }
}

impl OfTwo {
    fn value(self, a: u64, b: u64) -> u64 {
        let (x, y) = (a.cast_signed(), b.cast_signed());
        match self {
            OfTwo::LessOrEqual => truth(x <= y),
            OfTwo::Less => truth(x < y),
            OfTwo::Equal => truth(a == b),
            OfTwo::Unequal => truth(a != b),
            OfTwo::GreaterOrEqual => truth(x >= y),
            OfTwo::Greater => truth(x > y),
            OfTwo::And => a & b,
            OfTwo::Or => a | b,
            OfTwo::Xor => a ^ b,
            OfTwo::Implies => (a ^ 1) | b,
            OfTwo::Add => a.wrapping_add(b),
            OfTwo::Subtract => a.wrapping_sub(b),
        }
    }
}

impl Over {
    // By the members and those of them at which the second part is true.
    fn value(self, members: u64, kept: u64) -> u64 {
        match self {
            Over::Forall => truth(kept == members),
            Over::Exists => truth(kept != 0),
            Over::Select => kept,
        }
    }
}

impl Form {
    // The value, v being the number of the next variable.
    fn value(&self, w: &World, vars: &Variables, v: u32) -> u64 {
        match self {
            Form::Leaf(leaf) => leaf.value(w, vars),
            Form::One(of_one, a) => of_one.value(w, a.value(w, vars, v)),
            Form::Two(of_two, a, b) => of_two.value(a.value(w, vars, v), b.value(w, vars, v)),
            Form::Over(over, set, part) => {
                let members = set.value(w, vars, v);
                let mut kept = 0;
                for row in 0..16 {
                    if has(members, row)
                        && part.value(w, &bound(vars, v, row), v.saturating_add(1)) == 1
                    {
                        kept = with(kept, row);
                    }
                }
                over.value(members, kept)
            }
        }
    }

    // Whether a body is true, self being an object.
    pub fn holds(&self, w: &World, object: u32) -> bool {
        self.value(w, &[object; 8], 1) == 1
    }

    // How many levels there are.
    pub fn height(&self) -> u32 {
        let below = match self {
            Form::Leaf(_) => 0,
            Form::One(_, a) => a.height(),
            Form::Two(_, a, b) | Form::Over(_, a, b) => a.height().max(b.height()),
        };
        below.saturating_add(1)
    }

    // How many variables there are at most around a form, with those around this one.
    pub fn scope(&self, around: u32) -> u32 {
        match self {
            Form::Leaf(_) => around,
            Form::One(_, a) => a.scope(around),
            Form::Two(_, a, b) => a.scope(around).max(b.scope(around)),
            Form::Over(_, a, b) => a.scope(around).max(b.scope(around.saturating_add(1))),
        }
    }

    // One bit for each variable that is named.
    pub fn named(&self) -> u64 {
        match self {
            Form::Leaf(leaf) => leaf.named(),
            Form::One(_, a) => a.named(),
            Form::Two(_, a, b) | Form::Over(_, a, b) => a.named() | b.named(),
        }
    }
}
