// The evaluators of rule bodies over an indexed register. Variables stand for objects by their rows.
#![tactic(auto)]

ghost use Rattle.std.specs.Prelude.{◌≡◌, [], ◌∷◌, ◌<◌, ◌≤◌};
ghost use Rattle.meaning.specs.Forms.{truth, number, collection};
ghost use Rattle.walks.specs.Site.{Site, code_at, site_in};
ghost use Rattle.walks.specs.Values.{truth_of, number_of};
ghost use Rattle.walks.specs.Walks.{Begun, Stands, Walked};
ghost use Rattle.ocl.specs.Ready.{Ready, BodyReady};

use body_rows::body::field;
use operators::operators::{decided, joined, stops};
use tables::{Counts, Sheet};
use walks::{Member, cell_value, next_far, next_instance, start_of, variable, weight};

// Where a form of a body ends: its rule, the row after its last one, and how many variables are bound there.
#[derive(Clone, Copy)]
pub struct Place(pub u32, pub u32, pub u32);

// Whether the truth that ends before the place holds.
#[cycle(combination_comparison_connection_next_next_selected_quantified_totalled_truth_value)]
pub fn truth(
    n: Counts,
    sheet: &Sheet,
    index: &[u16; 81920],
    spans: &[u32; 65],
    vs: &[u32; 64],
    at: Place,
) -> bool
    requires { Ready (site_in n sheet.now index.now at.0) spans.now at.1 vs.now at.2 truth }
    ensures { result ≡ truth_of
        (site_in n sheet.now index.now at.0)
        at.1 vs.now at.2 }
{
    let rule = at.0;
    let e = at.1;
    let row = e - 1;
    let depth = at.2;
    let code = field(sheet.bodies, rule, row, 0);
    if code < 6 {
        return comparison(n, sheet, index, spans, vs, at, code);
    }
    if code == 6 {
        let second = Place(rule, row, depth);
        return !truth(n, sheet, index, spans, vs, second);
    }
    if code < 11 {
        return connection(n, sheet, index, spans, vs, at, code);
    }
    if code < 13 {
        return quantified(n, sheet, index, spans, vs, at, code);
    }
    let object = variable(vs, field(sheet.bodies, rule, row, 1));
    let t = register::type_of(sheet.objects, object);
    schema::under(n.types, sheet.types, t, field(sheet.bodies, rule, row, 2))
}

// A comparison of two numbers.
#[cycle(combination_comparison_connection_next_next_selected_quantified_totalled_truth_value)]
fn comparison(
    n: Counts,
    sheet: &Sheet,
    index: &[u16; 81920],
    spans: &[u32; 65],
    vs: &[u32; 64],
    at: Place,
    code: u32,
) -> bool
    requires { (Ready (site_in n sheet.now index.now at.0) spans.now at.1 vs.now at.2 truth)
        × (code ≡ code_at (site_in n sheet.now index.now at.0) at.1)
        × (code < 6) }
    ensures { result ≡ truth_of
        (site_in n sheet.now index.now at.0)
        at.1 vs.now at.2 }
{
    let rule = at.0;
    let e = at.1;
    let row = e - 1;
    let depth = at.2;
    let start = start_of(spans, row);
    let first = Place(rule, start, depth);
    let left = value(n, sheet, index, spans, vs, first);
    let second = Place(rule, row, depth);
    let right = value(n, sheet, index, spans, vs, second);
    signed::compare(code, left, right)
}

// A connective of two truths; the second is not looked at where the first decides.
#[cycle(combination_comparison_connection_next_next_selected_quantified_totalled_truth_value)]
fn connection(
    n: Counts,
    sheet: &Sheet,
    index: &[u16; 81920],
    spans: &[u32; 65],
    vs: &[u32; 64],
    at: Place,
    code: u32,
) -> bool
    requires { (Ready (site_in n sheet.now index.now at.0) spans.now at.1 vs.now at.2 truth)
        × (code ≡ code_at (site_in n sheet.now index.now at.0) at.1)
        × (7 ≤ code)
        × (code < 11) }
    ensures { result ≡ truth_of
        (site_in n sheet.now index.now at.0)
        at.1 vs.now at.2 }
{
    let rule = at.0;
    let e = at.1;
    let row = e - 1;
    let depth = at.2;
    let start = start_of(spans, row);
    let first = Place(rule, start, depth);
    let left = truth(n, sheet, index, spans, vs, first);
    if decided(code, left) {
        return code != 7;
    }
    let second = Place(rule, row, depth);
    let right = truth(n, sheet, index, spans, vs, second);
    joined(code, left, right)
}

// A quantifier over a collection: its members one after the other, until one decides.
#[cycle(combination_comparison_connection_next_next_selected_quantified_totalled_truth_value)]
fn quantified(
    n: Counts,
    sheet: &Sheet,
    index: &[u16; 81920],
    spans: &[u32; 65],
    vs: &[u32; 64],
    at: Place,
    code: u32,
) -> bool
    requires { (Ready (site_in n sheet.now index.now at.0) spans.now at.1 vs.now at.2 truth)
        × (code ≡ code_at (site_in n sheet.now index.now at.0) at.1)
        × (11 ≤ code)
        × (code < 13) }
    ensures { result ≡ truth_of
        (site_in n sheet.now index.now at.0)
        at.1 vs.now at.2 }
{
    let rule = at.0;
    let e = at.1;
    let row = e - 1;
    let depth = at.2;
    let start = start_of(spans, row);
    let of = Place(rule, start, depth);
    let mut inner = *vs;
    let d = depth as usize;
    let mut word = begin(n, sheet, index, spans, vs, of);
    while let Some(member) = next(n, sheet, index, spans, vs, of, word) {
        inner[d] = member.row;
        let deeper = depth + 1;
        let to = Place(rule, row, deeper);
        let holds = truth(n, sheet, index, spans, &inner, to);
        if stops(code, holds) {
            return code != 11;
        }
        word = member.next;
    }
    code == 11
}

// The number that ends before the place.
#[cycle(combination_comparison_connection_next_next_selected_quantified_totalled_truth_value)]
pub fn value(
    n: Counts,
    sheet: &Sheet,
    index: &[u16; 81920],
    spans: &[u32; 65],
    vs: &[u32; 64],
    at: Place,
) -> i64
    requires { Ready (site_in n sheet.now index.now at.0) spans.now at.1 vs.now at.2 number }
    ensures { result ≡ number_of
        (site_in n sheet.now index.now at.0)
        at.1 vs.now at.2 }
{
    let rule = at.0;
    let e = at.1;
    let row = e - 1;
    let code = field(sheet.bodies, rule, row, 0);
    let x = field(sheet.bodies, rule, row, 1);
    if code == 14 {
        return signed::from_word(x);
    }
    if code == 15 {
        let object = variable(vs, x);
        return cell_value(sheet.objects, object, field(sheet.bodies, rule, row, 2));
    }
    if code < 18 {
        return totalled(n, sheet, index, spans, vs, at, code);
    }
    combination(n, sheet, index, spans, vs, at, code)
}

// A sum or a difference of two numbers.
#[cycle(combination_comparison_connection_next_next_selected_quantified_totalled_truth_value)]
fn combination(
    n: Counts,
    sheet: &Sheet,
    index: &[u16; 81920],
    spans: &[u32; 65],
    vs: &[u32; 64],
    at: Place,
    code: u32,
) -> i64
    requires { (Ready (site_in n sheet.now index.now at.0) spans.now at.1 vs.now at.2 number)
        × (code ≡ code_at (site_in n sheet.now index.now at.0) at.1)
        × (18 ≤ code) }
    ensures { result ≡ number_of
        (site_in n sheet.now index.now at.0)
        at.1 vs.now at.2 }
{
    let rule = at.0;
    let e = at.1;
    let row = e - 1;
    let depth = at.2;
    let start = start_of(spans, row);
    let first = Place(rule, start, depth);
    let left = value(n, sheet, index, spans, vs, first);
    let second = Place(rule, row, depth);
    let right = value(n, sheet, index, spans, vs, second);
    if code == 18 {
        signed::add(left, right)
    } else {
        signed::subtract(left, right)
    }
}

// The size of a collection, or the sum of a cell over it.
#[cycle(combination_comparison_connection_next_next_selected_quantified_totalled_truth_value)]
fn totalled(
    n: Counts,
    sheet: &Sheet,
    index: &[u16; 81920],
    spans: &[u32; 65],
    vs: &[u32; 64],
    at: Place,
    code: u32,
) -> i64
    requires { (Ready (site_in n sheet.now index.now at.0) spans.now at.1 vs.now at.2 number)
        × (code ≡ code_at (site_in n sheet.now index.now at.0) at.1)
        × (16 ≤ code)
        × (code < 18) }
    ensures { result ≡ number_of
        (site_in n sheet.now index.now at.0)
        at.1 vs.now at.2 }
{
    let rule = at.0;
    let e = at.1;
    let row = e - 1;
    let depth = at.2;
    let of = Place(rule, row, depth);
    let cell = field(sheet.bodies, rule, row, 1);
    let mut total: i64 = 0;
    let mut word = begin(n, sheet, index, spans, vs, of);
    while let Some(member) = next(n, sheet, index, spans, vs, of, word) {
        total = signed::add(total, weight(sheet.objects, code, cell, member.row));
        word = member.next;
    }
    total
}

// The word at which a walk over the collection that ends before the place begins.
pub fn begin(
    n: Counts,
    sheet: &Sheet,
    index: &[u16; 81920],
    spans: &[u32; 65],
    vs: &[u32; 64],
    at: Place,
) -> u32
    requires { Ready (site_in n sheet.now index.now at.0) spans.now at.1 vs.now at.2 collection }
    ensures { Begun
        (site_in n sheet.now index.now at.0)
        at.1 vs.now at.2 result }
{
    let rule = at.0;
    let e = at.1;
    let row = e - 1;
    let code = field(sheet.bodies, rule, row, 0);
    if code == 20 {
        let object = variable(vs, field(sheet.bodies, rule, row, 1));
        return link_index::first_slot(index, field(sheet.bodies, rule, row, 2), object);
    }
    if code == 21 {
        return 0;
    }
    let start = start_of(spans, row);
    let of = Place(rule, start, at.2);
    begin(n, sheet, index, spans, vs, of)
}

// The next member of a walk over the collection that ends before the place.
#[cycle(combination_comparison_connection_next_next_selected_quantified_totalled_truth_value)]
pub fn next(
    n: Counts,
    sheet: &Sheet,
    index: &[u16; 81920],
    spans: &[u32; 65],
    vs: &[u32; 64],
    at: Place,
    word: u32,
) -> Option<Member>
    requires { (Ready (site_in n sheet.now index.now at.0) spans.now at.1 vs.now at.2 collection)
        × (Stands (site_in n sheet.now index.now at.0) at.1 vs.now word) }
    ensures { Walked
        (site_in n sheet.now index.now at.0)
        at.1 vs.now at.2 word result }
{
    let rule = at.0;
    let e = at.1;
    let row = e - 1;
    let code = field(sheet.bodies, rule, row, 0);
    if code == 20 {
        return next_far(index, word);
    }
    if code == 21 {
        let t = field(sheet.bodies, rule, row, 1);
        return next_instance(n.types, sheet.types, n.objects, sheet.objects, t, word);
    }
    next_selected(n, sheet, index, spans, vs, at, word)
}

// The next member of a walk over a select: the members of its collection one after the other, until the condition holds at one.
#[cycle(combination_comparison_connection_next_next_selected_quantified_totalled_truth_value)]
fn next_selected(
    n: Counts,
    sheet: &Sheet,
    index: &[u16; 81920],
    spans: &[u32; 65],
    vs: &[u32; 64],
    at: Place,
    word: u32,
) -> Option<Member>
    requires { (Ready (site_in n sheet.now index.now at.0) spans.now at.1 vs.now at.2 collection)
        × (Stands (site_in n sheet.now index.now at.0) at.1 vs.now word)
        × (code_at (site_in n sheet.now index.now at.0) at.1 ≡ 22) }
    ensures { Walked
        (site_in n sheet.now index.now at.0)
        at.1 vs.now at.2 word result }
{
    let rule = at.0;
    let e = at.1;
    let row = e - 1;
    let depth = at.2;
    let start = start_of(spans, row);
    let of = Place(rule, start, depth);
    let mut inner = *vs;
    let d = depth as usize;
    let mut last = word;
    while let Some(member) = next(n, sheet, index, spans, vs, of, last) {
        inner[d] = member.row;
        let deeper = depth + 1;
        let to = Place(rule, row, deeper);
        if truth(n, sheet, index, spans, &inner, to) {
            return Some(member);
        }
        last = member.next;
    }
    None
}

// Whether a rule's body, of `size` rows, holds at the object of a row.
pub fn holds_at(
    n: Counts,
    sheet: &Sheet,
    index: &[u16; 81920],
    spans: &[u32; 65],
    rule: u32,
    size: u32,
    row: u32,
) -> bool
    requires { BodyReady (site_in n sheet.now index.now rule) spans.now size row }
    ensures { result ≡ truth_of
        (site_in n sheet.now index.now rule)
        size (row ∷ []) 1 }
{
    let mut vs = [0u32; 64];
    vs[0] = row;
    let at = Place(rule, size, 1);
    truth(n, sheet, index, spans, &vs, at)
}
