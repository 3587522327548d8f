//! Whether the value of a row is below 0.
ghost use Rattle.std.specs.Prelude.{◌≡◌, ◌≤◌, ◌<◌, ◌^◌, ◌↔◌, ◌+◌, ◌<ℤ◌, ℕ, pos, false, length, IsTrue, IfSome, IfNone};
ghost use Rattle.lpcc_case.specs.declared.form.Form.TheVariants as form;
ghost use Rattle.dict.specs.Terms.{AreTerms};
ghost use Rattle.dict.specs.Dictionaries.{entry_at, form_at, row_at};
ghost use Rattle.orders.specs.Order.{IsBelow};
ghost use Rattle.walks.specs.Duals.{IsNamed, IsPlaced};
ghost use Rattle.walks.specs.Steps.{IsFirst, IsSized};
ghost use Rattle.walks.specs.Values.{is_fixed, parts, value};
ghost use Rattle.lex_simplex.specs.Firsts.{FirstAmong, HasEps, is_loose};
ghost use Rattle.lex_simplex.specs.Marks.{AreMarks};

use crate::enter::{is_before, term_of};
use dict::Dict;
use lpcc_case::{Case, Form};
use nogoods::NoGood;

/// The number of constraints.
pub fn constraints_of(case: &Case) -> u32
    ensures value { result ≡ length case.now.constraints }
    ensures few { result ≤ 2000 }
{
    case.constraints().len() as u32
}

/// Whether constraint k stands in the row.
pub fn stands_in(dict: &Dict, row: u32, k: u32) -> bool
    requires row { row < length dict.now.rows }
    ensures { IsTrue result ↔ (form_at dict.now.basic row ≡ form.Con k) }
{
    match dict.basic(row) {
        Form::Con(l) => l == k,
        _ => false,
    }
}

/// Whether the form is a constraint that is not fixed.
#[inline(always)]
fn is_loose(case: &Case, tight: &NoGood, fixed: &[bool], form: Form) -> bool
    requires marks { AreMarks case.now tight.now fixed.now }
    requires named { IsNamed case.now form }
    ensures { result ≡ is_loose case.now tight.now form }
{
    match form {
        Form::Con(k) => !fixed[k as usize],
        _ => false,
    }
}

/// The first of the constraint found so far and that of term i, where it has an eps.
#[inline(always)]
fn looser(
    case: &Case,
    tight: &NoGood,
    fixed: &[bool],
    dict: &Dict,
    row: u32,
    entries: &[(u32, i64)],
    best: Option<u32>,
    i: usize,
) -> Option<u32>
    requires marks { AreMarks case.now tight.now fixed.now }
    requires entries { entries.now ≡ (row_at dict.now.rows row).entries }
    requires terms { AreTerms (2 ^ 63) 0 (length dict.now.nonbasic) entries.now }
    requires i { i < length entries.now }
    requires named { (k : ℕ) → k < length dict.now.nonbasic → IsNamed case.now (form_at dict.now.nonbasic k) }
    requires best { FirstAmong case.now dict.now.nonbasic entries.now (HasEps case.now tight.now dict.now row) i best }
    ensures { FirstAmong case.now dict.now.nonbasic entries.now (HasEps case.now tight.now dict.now row) (i + 1) result }
{
    let term = term_of(entries, i, dict.columns());
    if !(term.1 != 0 && is_loose(case, tight, fixed, dict.nonbasic(term.0))) {
        return best;
    }
    match best {
        None => Some(term.0),
        Some(b) => if is_before(case, dict, term.0, b) {
            Some(term.0)
        } else {
            Some(b)
        },
    }
}

/// The place of the first nonbasic constraint whose eps the value of the row has.
fn first_loose(case: &Case, tight: &NoGood, fixed: &[bool], dict: &Dict, row: u32) -> Option<u32>
    requires marks { AreMarks case.now tight.now fixed.now }
    requires row { row < length dict.now.rows }
    requires named { (j : ℕ) → j < length dict.now.nonbasic → IsNamed case.now (form_at dict.now.nonbasic j) }
    ensures some { IfSome result (IsFirst case.now dict.now.nonbasic (HasEps case.now tight.now dict.now row)) }
    ensures none { IfNone result ((j : ℕ) → j < length dict.now.nonbasic → HasEps case.now tight.now dict.now row j → ⊥) }
{
    let entries = dict.entries(row);
    let mut best: Option<u32> = None;
    for i in 0..entries.len() {
        best = looser(case, tight, fixed, dict, row, entries, best, i);
    }
    best
}

/// Whether the constraint at the place is before constraint k.
#[inline(always)]
fn names_before(dict: &Dict, place: u32, k: u32) -> bool
    requires place { place < length dict.now.nonbasic }
    ensures { (l : ℕ) → form_at dict.now.nonbasic place ≡ form.Con l → (IsTrue result ↔ (l < k)) }
{
    match dict.nonbasic(place) {
        Form::Con(l) => l < k,
        _ => false,
    }
}

/// Whether the entry of the row at the place is above 0.
#[inline(always)]
fn is_positive(dict: &Dict, row: u32, place: u32) -> bool
    requires row { row < length dict.now.rows }
    ensures { IsTrue result ↔ (pos 0 <ℤ entry_at dict.now row place) }
{
    dict.entry(row, place) > 0
}

/// Whether the value of the row, in which constraint k stands, is below 0.
pub fn is_below(case: &Case, tight: &NoGood, fixed: &[bool], dict: &Dict, row: u32, k: u32) -> bool
    requires marks { AreMarks case.now tight.now fixed.now }
    requires sized { IsSized case.now dict.now }
    requires placed { IsPlaced case.now dict.now }
    requires row { row < length dict.now.rows }
    requires form { form_at dict.now.basic row ≡ form.Con k }
    requires free { is_fixed case.now tight.now k ≡ false }
    ensures { IsTrue result ↔ IsBelow (parts case.now) (value case.now tight.now dict.now row) }
{
    let constant = dict.constant(row);
    if constant != 0 {
        return constant < 0;
    }
    match first_loose(case, tight, fixed, dict, row) {
        None => false,
        Some(place) => names_before(dict, place, k) && is_positive(dict, row, place),
    }
}
