//! Which form enters: of those that may, the first in the order of forms.
ghost use Rattle.std.specs.Prelude.{◌≡◌, ◌≢◌, ◌≤◌, ◌<◌, ◌^◌, ◌↔◌, ◌+◌, ℕ, pos, length, slice_index_or, IsTrue, IfSome, IfNone};
ghost use Rattle.lp_base.specs.Numbers.{IsNarrow};
ghost use Rattle.lpcc_case.specs.Points.{coefficient};
ghost use Rattle.dict.specs.Terms.{AreTerms};
ghost use Rattle.dict.specs.Dictionaries.{form_at, entry_at, row_at};
ghost use Rattle.walks.specs.Duals.{Helps, IsNamed, NoneFree, NoneHelps, is_free};
ghost use Rattle.lpcc_case.specs.Forms.{number};
ghost use Rattle.walks.specs.Steps.{IsFirst, MayExchange};
ghost use Rattle.lex_simplex.specs.Firsts.{FirstAmong};
ghost use Rattle.lex_simplex.specs.Marks.{AreMarks};

use dict::Dict;
use lpcc_case::{Case, Form};
use nogoods::NoGood;

/// Term i of a row.
#[inline(always)]
pub fn term_of(entries: &[(u32, i64)], i: usize, places: u32) -> (u32, i64)
    requires terms { AreTerms (2 ^ 63) 0 places entries.now }
    requires i { i < length entries.now }
    ensures term { result ≡ slice_index_or entries.now i (0, pos 0) }
    ensures within { result.0 < places }
    ensures value { coefficient entries.now result.0 ≡ result.1 }
    ensures narrow { IsNarrow result.1 }
{
    entries[i]
}

/// Whether a nonbasic form with this entry in the row may change so that the row rises, or falls.
#[inline(always)]
fn helps(case: &Case, tight: &NoGood, fixed: &[bool], falls: bool, form: Form, z: i64) -> bool
    requires marks { AreMarks case.now tight.now fixed.now }
    requires named { IsNamed case.now form }
    ensures { IsTrue result ↔ Helps case.now tight.now falls form z }
{
    match form {
        Form::Col(_) => z != 0,
        Form::Con(k) => !fixed[k as usize] && (if falls { z < 0 } else { z > 0 }),
        Form::Cost => false,
    }
}

/// Whether the form may change.
#[inline(always)]
fn is_free(case: &Case, tight: &NoGood, fixed: &[bool], form: Form) -> bool
    requires marks { AreMarks case.now tight.now fixed.now }
    requires named { IsNamed case.now form }
    ensures { result ≡ is_free case.now tight.now form }
{
    match form {
        Form::Col(_) => true,
        Form::Con(k) => !fixed[k as usize],
        Form::Cost => false,
    }
}

fn after_columns(case: &Case, k: u32) -> u32
    requires { k < length case.now.constraints }
    ensures { result ≡ case.now.columns + k }
{
    let _constraints = case.constraints();
    case.columns() + k
}

/// The number of a form in the order of forms.
fn number(case: &Case, form: Form) -> u32
    requires named { IsNamed case.now form }
    ensures { result ≡ number case.now form }
{
    match form {
        Form::Col(j) => j,
        Form::Con(k) => after_columns(case, k),
        Form::Cost => 0,
    }
}

/// Whether the form at place j is before that at place b.
#[inline(always)]
pub fn is_before(case: &Case, dict: &Dict, j: u32, b: u32) -> bool
    requires j { j < length dict.now.nonbasic }
    requires b { b < length dict.now.nonbasic }
    requires named { (k : ℕ) → k < length dict.now.nonbasic → IsNamed case.now (form_at dict.now.nonbasic k) }
    ensures { IsTrue result ↔ (number case.now (form_at dict.now.nonbasic j) < number case.now (form_at dict.now.nonbasic b)) }
{
    number(case, dict.nonbasic(j)) < number(case, dict.nonbasic(b))
}

/// The first of the form found so far and that of term i, where it helps.
#[inline(always)]
fn better(
    case: &Case,
    tight: &NoGood,
    fixed: &[bool],
    dict: &Dict,
    row: u32,
    falls: bool,
    entries: &[(u32, i64)],
    best: Option<u32>,
    i: usize,
) -> Option<u32>
    requires marks { AreMarks case.now tight.now fixed.now }
    requires entries { entries.now ≡ (row_at dict.now.rows row).entries }
    requires terms { AreTerms (2 ^ 63) 0 (length dict.now.nonbasic) entries.now }
    requires i { i < length entries.now }
    requires named { (k : ℕ) → k < length dict.now.nonbasic → IsNamed case.now (form_at dict.now.nonbasic k) }
    requires best { FirstAmong case.now dict.now.nonbasic entries.now (λ j. Helps case.now tight.now falls (form_at dict.now.nonbasic j) (entry_at dict.now row j)) i best }
    ensures { FirstAmong case.now dict.now.nonbasic entries.now (λ j. Helps case.now tight.now falls (form_at dict.now.nonbasic j) (entry_at dict.now row j)) (i + 1) result }
{
    let term = term_of(entries, i, dict.columns());
    if !helps(case, tight, fixed, falls, dict.nonbasic(term.0), term.1) {
        return best;
    }
    match best {
        None => Some(term.0),
        Some(b) => if is_before(case, dict, term.0, b) {
            Some(term.0)
        } else {
            Some(b)
        },
    }
}

/// The place of the first form that helps.
pub fn entering(
    case: &Case,
    tight: &NoGood,
    fixed: &[bool],
    dict: &Dict,
    row: u32,
    falls: bool,
) -> Option<u32>
    requires marks { AreMarks case.now tight.now fixed.now }
    requires row { row < length dict.now.rows }
    requires named { (j : ℕ) → j < length dict.now.nonbasic → IsNamed case.now (form_at dict.now.nonbasic j) }
    ensures some { IfSome result (IsFirst case.now dict.now.nonbasic (λ j. Helps case.now tight.now falls (form_at dict.now.nonbasic j) (entry_at dict.now row j))) }
    ensures none { IfNone result (NoneHelps case.now tight.now falls dict.now row) }
{
    let entries = dict.entries(row);
    let mut best: Option<u32> = None;
    for i in 0..entries.len() {
        best = better(case, tight, fixed, dict, row, falls, entries, best, i);
    }
    best
}

/// The first of the form found so far and that of term i, where it may be exchanged.
#[inline(always)]
fn freer(
    case: &Case,
    tight: &NoGood,
    fixed: &[bool],
    dict: &Dict,
    row: u32,
    entries: &[(u32, i64)],
    best: Option<u32>,
    i: usize,
) -> Option<u32>
    requires marks { AreMarks case.now tight.now fixed.now }
    requires entries { entries.now ≡ (row_at dict.now.rows row).entries }
    requires terms { AreTerms (2 ^ 63) 0 (length dict.now.nonbasic) entries.now }
    requires i { i < length entries.now }
    requires named { (k : ℕ) → k < length dict.now.nonbasic → IsNamed case.now (form_at dict.now.nonbasic k) }
    requires best { FirstAmong case.now dict.now.nonbasic entries.now (MayExchange case.now tight.now dict.now row) i best }
    ensures { FirstAmong case.now dict.now.nonbasic entries.now (MayExchange case.now tight.now dict.now row) (i + 1) result }
{
    let term = term_of(entries, i, dict.columns());
    if !(term.1 != 0 && is_free(case, tight, fixed, dict.nonbasic(term.0))) {
        return best;
    }
    match best {
        None => Some(term.0),
        Some(b) => if is_before(case, dict, term.0, b) {
            Some(term.0)
        } else {
            Some(b)
        },
    }
}

/// The place of the first form that may change and has an entry in the row.
pub fn exchangeable(
    case: &Case,
    tight: &NoGood,
    fixed: &[bool],
    dict: &Dict,
    row: u32,
) -> Option<u32>
    requires marks { AreMarks case.now tight.now fixed.now }
    requires row { row < length dict.now.rows }
    requires named { (j : ℕ) → j < length dict.now.nonbasic → IsNamed case.now (form_at dict.now.nonbasic j) }
    ensures some { IfSome result (IsFirst case.now dict.now.nonbasic (MayExchange case.now tight.now dict.now row)) }
    ensures none { IfNone result (NoneFree case.now tight.now dict.now row) }
{
    let entries = dict.entries(row);
    let mut best: Option<u32> = None;
    for i in 0..entries.len() {
        best = freer(case, tight, fixed, dict, row, entries, best, i);
    }
    best
}
