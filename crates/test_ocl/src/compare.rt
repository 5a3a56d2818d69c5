// The proved checks beside the plain evaluator, on one book and one register.
use crate::plain::{Form, members, plant};
use crate::table_rows::row;
use crate::tally::{Slot, Tally};
use crate::world::{World, has};
use cases::sheet::Sheet;
use std::alloc::{AllocError, Global};
use tables::Answer;

#[derive(Clone, Copy, PartialEq, Eq)]
enum Said {
    Accepted,
    Broken(u32, u32),
    Refused(u32, u32),
}

impl From<Answer> for Said {
    fn from(a: Answer) -> Said {
        match a {
            Answer::Accepted => Said::Accepted,
            Answer::Broken(rule, id) => Said::Broken(rule, id),
            Answer::Refused(number, place) => Said::Refused(number, place),
        }
    }
}

// What the proved full check says, and what it says of one rule at one object.
fn proved(sheet: &Sheet) -> Said {
    Said::from(full::check(sheet.used, &sheet.lent_sheet()))
}

fn proved_at(sheet: &Sheet, rule: u32, id: u32) -> Said {
    Said::from(full::check_rule(sheet.used, &sheet.lent_sheet(), rule, id))
}

fn id_of(sheet: &Sheet, object: u32) -> u32 {
    row::<10>(&sheet.objects, object)[0]
}

// Whether an object is below one of the floors: under its type, and below 0 in its cell.
fn below(sheet: &Sheet, w: &World, object: u32) -> bool {
    (0..sheet.used.floors).any(|i| {
        let [t, cell] = row::<2>(&sheet.floors, i);
        has(w.all(t), object) && w.cell(object, cell).cast_signed() < 0
    })
}

// What a check is to say where a rule is broken at an id, or at none: refused where an object is below a floor.
fn to_say(sheet: &Sheet, w: &World, broken: Option<(u32, u32)>) -> Said {
    if let Some(object) = (0..sheet.used.objects).find(|object| below(sheet, w, *object)) {
        return Said::Refused(5, object);
    }
    match broken {
        Some((rule, id)) => Said::Broken(rule, id),
        None => Said::Accepted,
    }
}

// The answer about one rule and one id, beside what it is to be.
fn one_pair(sheet: &Sheet, tally: &mut Tally, rule: u32, id: u32, plainly: Said) {
    tally.add(Slot::Cases, 1);
    tally.count_if(Slot::Wrong, plainly != proved_at(sheet, rule, id));
}

// The tree of a rule's body, and what is counted of it.
fn plant_rule(
    alloc: Global,
    sheet: &Sheet,
    tally: &mut Tally,
    rule: u32,
) -> Result<Option<Form>, AllocError> {
    let [_, rows] = row::<2>(&sheet.rules, rule);
    let first = rule.saturating_mul(64);
    let mut body = Vec::new(alloc);
    for r in first..first.saturating_add(rows) {
        let form = row::<4>(&sheet.bodies, r);
        tally.count_operator(form[0]);
        body.push(form)?;
    }
    let tree = plant(alloc, &body)?;
    tally.add(Slot::Rules, 1);
    if let Some(tree) = &tree {
        tally.raise(Slot::Depth, tree.height());
        tally.raise(Slot::Scope, tree.scope(1));
        tally.raise(Slot::Named, members(tree.named()));
    }
    Ok(tree)
}

// One rule at one object. Whether it is broken there.
fn one_object(
    sheet: &Sheet,
    tally: &mut Tally,
    w: &World,
    tree: &Option<Form>,
    rule: u32,
    object: u32,
) -> bool {
    let [context, _] = row::<2>(&sheet.rules, rule);
    let id = id_of(sheet, object);
    let under = has(w.all(context), object);
    let holds = tree.as_ref().is_some_and(|form| form.holds(w, object));
    let broken = under && !holds;
    let at = if broken { Some((rule, id)) } else { None };
    one_pair(sheet, &mut *tally, rule, id, to_say(sheet, w, at));
    tally.add(Slot::Pairs, 1);
    tally.count_if(Slot::Under, under);
    tally.count_if(Slot::Broken, broken);
    broken
}

// One rule at every object, last first. Answers the first object at which it is broken.
fn one_rule(
    alloc: Global,
    sheet: &Sheet,
    tally: &mut Tally,
    w: &World,
    rule: u32,
) -> Result<Option<u32>, AllocError> {
    let tree = plant_rule(alloc, sheet, &mut *tally, rule)?;
    let mut first = None;
    for object in (0..sheet.used.objects).rev() {
        if one_object(sheet, &mut *tally, w, &tree, rule, object) {
            first = Some(object);
        }
    }
    Ok(first)
}

// Every rule at every object, last first. Answers what a full check is to say.
fn all_rules(
    alloc: Global,
    sheet: &Sheet,
    tally: &mut Tally,
    w: &World,
) -> Result<Said, AllocError> {
    let mut first = None;
    for rule in (0..sheet.used.rules).rev() {
        if let Some(object) = one_rule(alloc, sheet, &mut *tally, w, rule)? {
            first = Some((rule, id_of(sheet, object)));
        }
    }
    Ok(to_say(sheet, w, first))
}

// An object that is not there: no rule is broken at it. A rule that is not there: refused, whatever the object, and before one that is
// below a floor.
fn absent(sheet: &Sheet, tally: &mut Tally, w: &World) {
    let rule = sheet.used.rules;
    one_pair(sheet, &mut *tally, 0, 65535, to_say(sheet, w, None));
    one_pair(
        sheet,
        &mut *tally,
        rule,
        id_of(sheet, 0),
        Said::Refused(4, rule),
    );
    tally.add(Slot::Absent, 2);
}

// Counts a book by the two answers of its full check.
fn count_book(sheet: &Sheet, tally: &mut Tally, plainly: Said, proved: Said) {
    tally.add(Slot::Books, 1);
    tally.add(Slot::Cases, 1);
    tally.count_if(Slot::Wrong, plainly != proved);
    match proved {
        Said::Accepted => tally.add(Slot::Accepted, 1),
        Said::Broken(rule, _) => tally.count_if(Slot::Later, 0 < rule),
        Said::Refused(_, _) => tally.add(Slot::Below, 1),
    }
    tally.count_if(Slot::Floored, 0 < sheet.used.floors);
    tally.add(Slot::Objects, sheet.used.objects);
    tally.add(Slot::Links, sheet.used.links);
}

// The full check and every pair of a book and a register.
pub fn compare(alloc: Global, sheet: &Sheet, tally: &mut Tally) -> Result<(), AllocError> {
    let w = World::of(sheet);
    let plainly = all_rules(alloc, sheet, &mut *tally, &w)?;
    absent(sheet, &mut *tally, &w);
    count_book(sheet, tally, plainly, proved(sheet));
    Ok(())
}
