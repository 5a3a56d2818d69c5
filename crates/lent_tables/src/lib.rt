// Refusals 2 and 6 of lent tables, whatever their words say.
#![tactic(auto)]

ghost use Rattle.std.specs.Prelude.{◌≡◌, ◌||◌, not, []};
ghost use Rattle.rows.specs.Rows.{whole_rows};
ghost use Rattle.tables.specs.Layouts.{book_tables, register_sheet};
ghost use Rattle.tables.specs.Refusals.{overfull, any_overfull, any_long, not_whole};

use meaning::{
    MAX_FLOORS, MAX_FORMS, MAX_LINKS, MAX_OBJECTS, MAX_RELATIONSHIPS, MAX_RULES, MAX_TYPES,
};
use tables::{
    BODY_WIDTH, Counts, FLOOR_WIDTH, LINK_WIDTH, OBJECT_WIDTH, RELATIONSHIP_WIDTH, RULE_WIDTH,
    Sheet, TYPE_WIDTH,
};

// 2: whether more rows are used than the limit allows or the slice has.
pub fn too_many(t: &[u32], width: u32, used: usize, limit: u32) -> bool
    ensures { result ≡ overfull t.now width used limit }
{
    if (limit as usize) < used {
        return true;
    }
    rows::rows_lent(t, width) < used
}

pub fn or(a: bool, b: bool) -> bool
    ensures { result ≡ (a || b) }
{
    if a { true } else { b }
}

// 2: whether one of so many rules has more body rows than a body may have.
pub fn any_long(rules: &[u32], count: u32) -> bool
    ensures { result ≡ any_long rules.now count }
{
    for row in 0..count {
        if MAX_FORMS < rows::word(rules, RULE_WIDTH, row, 1) {
            return true;
        }
    }
    false
}

// 2: whether a table of a book or a register has more used rows than it may.
pub fn any_overfull(n: Counts, sheet: &Sheet) -> bool
    ensures { result ≡ any_overfull book_tables n (register_sheet sheet.now) }
{
    let a = too_many(sheet.types, TYPE_WIDTH, n.types as usize, MAX_TYPES);
    let b = too_many(sheet.floors, FLOOR_WIDTH, n.floors as usize, MAX_FLOORS);
    let c = too_many(
        sheet.relationships,
        RELATIONSHIP_WIDTH,
        n.relationships as usize,
        MAX_RELATIONSHIPS,
    );
    let d = too_many(sheet.rules, RULE_WIDTH, n.rules as usize, MAX_RULES);
    let e = too_many(
        sheet.bodies,
        BODY_WIDTH,
        (n.rules as usize) * (MAX_FORMS as usize),
        MAX_RULES * MAX_FORMS,
    );
    let f = too_many(sheet.objects, OBJECT_WIDTH, n.objects as usize, MAX_OBJECTS);
    let g = too_many(sheet.links, LINK_WIDTH, n.links as usize, MAX_LINKS);
    or(a, or(b, or(c, or(d, or(e, or(f, or(g, false)))))))
}

pub fn not_whole(t: &[u32], width: u32) -> bool
    ensures { result ≡ not (whole_rows t.now width) }
{
    !rows::whole(t, width)
}

// 6: whether a table of a book or a register is not whole rows.
pub fn any_broken(sheet: &Sheet) -> bool
    ensures { result ≡ not_whole book_tables (register_sheet sheet.now) }
{
    let a = not_whole(sheet.types, TYPE_WIDTH);
    let b = not_whole(sheet.floors, FLOOR_WIDTH);
    let c = not_whole(sheet.relationships, RELATIONSHIP_WIDTH);
    let d = not_whole(sheet.rules, RULE_WIDTH);
    let e = not_whole(sheet.bodies, BODY_WIDTH);
    let f = not_whole(sheet.objects, OBJECT_WIDTH);
    let g = not_whole(sheet.links, LINK_WIDTH);
    or(a, or(b, or(c, or(d, or(e, or(f, or(g, false)))))))
}
