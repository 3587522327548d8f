//! Which of two forms reaches 0 first where the constants tie: the first eps that tells them apart.
ghost use Rattle.std.specs.Prelude.{◌≡◌, ◌≢◌, ◌≤◌, ◌<◌, ◌^◌, ◌↔◌, ◌+◌, ◌-ℤ◌, ◌*ℤ◌, neg_ℤ, pos, length, unsigned_abs, ℕ, suc, false, IsTrue, slice_index_or};
ghost use Rattle.lp_base.specs.Numbers.{IsNarrow};
ghost use Rattle.lpcc_case.specs.declared.form.Form.TheVariants as form;
ghost use Rattle.dict.specs.Dictionaries.{form_at, row_at};
ghost use Rattle.dict.specs.Exchanges.{turn};
ghost use Rattle.walks.specs.Duals.{IsPlaced};
ghost use Rattle.walks.specs.Steps.{IsSized, IsSooner, distance};
ghost use Rattle.walks.specs.Values.{is_fixed};
ghost use Rattle.lex_simplex.specs.Marks.{AreMarks};
ghost use Rattle.lex_simplex.specs.Ratios.{AreSeen, IsCandidate, IsEarliest, IsSeen, lead};

use crate::enter::term_of;
use crate::leave::Candidate;
use crate::values::constraints_of;
use dict::Dict;
use lp_base::product;
use lpcc_case::{Case, Form};
use nogoods::NoGood;

/// A constraint whose eps tells two rows apart, and whether the first of them is the sooner by it.
#[derive(Clone, Copy)]
pub struct Earliest {
    constraint: u32,
    sooner: bool,
}

/// A number, or its negative.
#[inline(always)]
pub fn turned(flip: bool, z: i64) -> i64
    requires { IsNarrow z }
    ensures value { result ≡ turn flip z }
    ensures narrow { IsNarrow result }
{
    if flip { -z } else { z }
}

#[inline(always)]
fn small_product(a: i64, b: i64) -> i128
    requires left { IsNarrow a }
    requires right { IsNarrow b }
    ensures value { result ≡ a *ℤ b }
    ensures small { unsigned_abs result < 2 ^ 126 }
{
    product(a, b)
}

#[inline(always)]
fn difference(a: i128, b: i128) -> i128
    requires left { unsigned_abs a < 2 ^ 126 }
    requires right { unsigned_abs b < 2 ^ 126 }
    ensures value { result ≡ a -ℤ b }
    ensures small { unsigned_abs result < 2 ^ 127 }
{
    a - b
}

/// The difference of two products.
#[inline(always)]
pub fn difference_of_products(a: i64, b: i64, c: i64, d: i64) -> i128
    requires a { IsNarrow a }
    requires b { IsNarrow b }
    requires c { IsNarrow c }
    requires d { IsNarrow d }
    ensures value { result ≡ (a *ℤ b) -ℤ (c *ℤ d) }
    ensures small { unsigned_abs result < 2 ^ 127 }
{
    difference(small_product(a, b), small_product(c, d))
}

/// The number of the constraint that stands in the row.
#[inline(always)]
fn constraint_in(dict: &Dict, row: u32) -> u32
    requires { row < length dict.now.rows }
    ensures { (k : ℕ) → form_at dict.now.basic row ≡ form.Con k → result ≡ k }
{
    match dict.basic(row) {
        Form::Con(k) => k,
        _ => 0,
    }
}

/// The first of the constraints of the two rows. Each has an eps that the other row is without.
fn own_earliest(
    case: &Case,
    tight: &NoGood,
    dict: &Dict,
    stage: u32,
    goal_row: u32,
    col: u32,
    down: bool,
    c: Candidate,
    b: Candidate,
) -> Earliest
    requires sized { IsSized case.now dict.now }
    requires placed { IsPlaced case.now dict.now }
    requires c { IsCandidate case.now tight.now stage dict.now goal_row col down c }
    requires b { IsCandidate case.now tight.now stage dict.now goal_row col down b }
    requires apart { c.row ≢ b.row }
    ensures { IsEarliest case.now tight.now dict.now col down c.row b.row result }
{
    let own = constraint_in(dict, c.row);
    let other = constraint_in(dict, b.row);
    if own < other {
        Earliest {
            constraint: own,
            sooner: c.rises,
        }
    } else {
        Earliest {
            constraint: other,
            sooner: !b.rises,
        }
    }
}

/// How far the form of the row is from 0, by the eps of the constraint at a place.
#[inline(always)]
fn eps_at(
    case: &Case,
    tight: &NoGood,
    dict: &Dict,
    stage: u32,
    goal_row: u32,
    col: u32,
    down: bool,
    c: Candidate,
    place: u32,
    k: u32,
) -> i64
    requires sized { IsSized case.now dict.now }
    requires c { IsCandidate case.now tight.now stage dict.now goal_row col down c }
    requires place { place < length dict.now.nonbasic }
    requires form { form_at dict.now.nonbasic place ≡ form.Con k }
    requires free { is_fixed case.now tight.now k ≡ false }
    ensures value { result ≡ distance case.now tight.now dict.now col down c.row (suc k) }
    ensures narrow { IsNarrow result }
{
    turned(!c.rises, dict.entry(c.row, place))
}

/// How much later the form of row b reaches 0, by the eps of the constraint at a place.
#[inline(always)]
fn lead_at(
    case: &Case,
    tight: &NoGood,
    dict: &Dict,
    stage: u32,
    goal_row: u32,
    col: u32,
    down: bool,
    c: Candidate,
    b: Candidate,
    place: u32,
    k: u32,
) -> i128
    requires sized { IsSized case.now dict.now }
    requires c { IsCandidate case.now tight.now stage dict.now goal_row col down c }
    requires b { IsCandidate case.now tight.now stage dict.now goal_row col down b }
    requires place { place < length dict.now.nonbasic }
    requires form { form_at dict.now.nonbasic place ≡ form.Con k }
    requires free { is_fixed case.now tight.now k ≡ false }
    ensures value { result ≡ lead case.now tight.now dict.now col down c.row b.row (suc k) }
    ensures small { unsigned_abs result < 2 ^ 127 }
{
    let own = eps_at(case, tight, dict, stage, goal_row, col, down, c, place, k);
    let other = eps_at(case, tight, dict, stage, goal_row, col, down, b, place, k);
    difference_of_products(c.size, other, b.size, own)
}

/// The constraint at the place, where it is before the one found so far and tells the rows apart.
#[inline(always)]
fn earlier_at(
    case: &Case,
    tight: &NoGood,
    fixed: &[bool],
    dict: &Dict,
    stage: u32,
    goal_row: u32,
    col: u32,
    down: bool,
    c: Candidate,
    b: Candidate,
    e: Earliest,
    place: u32,
    k: u32,
) -> Earliest
    requires marks { AreMarks case.now tight.now fixed.now }
    requires sized { IsSized case.now dict.now }
    requires c { IsCandidate case.now tight.now stage dict.now goal_row col down c }
    requires b { IsCandidate case.now tight.now stage dict.now goal_row col down b }
    requires e { IsEarliest case.now tight.now dict.now col down c.row b.row e }
    requires place { place < length dict.now.nonbasic }
    requires form { form_at dict.now.nonbasic place ≡ form.Con k }
    ensures kept { IsEarliest case.now tight.now dict.now col down c.row b.row result }
    ensures lower { result.constraint ≤ e.constraint }
    ensures seen { IsSeen case.now tight.now dict.now col down c.row b.row result place }
{
    if k >= e.constraint || fixed[k as usize] {
        return e;
    }
    let lead = lead_at(
        case, tight, dict, stage, goal_row, col, down, c, b, place, k,
    );
    if lead == 0 {
        return e;
    }
    Earliest {
        constraint: k,
        sooner: lead > 0,
    }
}

/// The same of the form at the place.
#[inline(always)]
fn earlier(
    case: &Case,
    tight: &NoGood,
    fixed: &[bool],
    dict: &Dict,
    stage: u32,
    goal_row: u32,
    col: u32,
    down: bool,
    c: Candidate,
    b: Candidate,
    e: Earliest,
    place: u32,
) -> Earliest
    requires marks { AreMarks case.now tight.now fixed.now }
    requires sized { IsSized case.now dict.now }
    requires c { IsCandidate case.now tight.now stage dict.now goal_row col down c }
    requires b { IsCandidate case.now tight.now stage dict.now goal_row col down b }
    requires e { IsEarliest case.now tight.now dict.now col down c.row b.row e }
    requires place { place < length dict.now.nonbasic }
    ensures kept { IsEarliest case.now tight.now dict.now col down c.row b.row result }
    ensures lower { result.constraint ≤ e.constraint }
    ensures seen { IsSeen case.now tight.now dict.now col down c.row b.row result place }
{
    match dict.nonbasic(place) {
        Form::Con(k) => earlier_at(
            case, tight, fixed, dict, stage, goal_row, col, down, c, b, e, place, k,
        ),
        _ => e,
    }
}

/// The first constraint that tells the rows apart, of those with an entry in the row and the one
/// found so far.
fn earliest_in(
    case: &Case,
    tight: &NoGood,
    fixed: &[bool],
    dict: &Dict,
    stage: u32,
    goal_row: u32,
    col: u32,
    down: bool,
    c: Candidate,
    b: Candidate,
    e: Earliest,
    row: u32,
) -> Earliest
    requires marks { AreMarks case.now tight.now fixed.now }
    requires sized { IsSized case.now dict.now }
    requires c { IsCandidate case.now tight.now stage dict.now goal_row col down c }
    requires b { IsCandidate case.now tight.now stage dict.now goal_row col down b }
    requires e { IsEarliest case.now tight.now dict.now col down c.row b.row e }
    requires row { row < length dict.now.rows }
    ensures kept { IsEarliest case.now tight.now dict.now col down c.row b.row result }
    ensures lower { result.constraint ≤ e.constraint }
    ensures seen { AreSeen case.now tight.now dict.now col down c.row b.row result row (length (row_at dict.now.rows row).entries) }
{
    let entries = dict.entries(row);
    let mut best = e;
    for i in 0..entries.len() {
        let term = term_of(entries, i, dict.columns());
        best = earlier(
            case, tight, fixed, dict, stage, goal_row, col, down, c, b, best, term.0,
        );
    }
    best
}

/// Whether the form of c reaches 0 before that of b, where their constants tie.
pub fn sooner_by_eps(
    case: &Case,
    tight: &NoGood,
    fixed: &[bool],
    dict: &Dict,
    stage: u32,
    goal_row: u32,
    col: u32,
    down: bool,
    c: Candidate,
    b: Candidate,
) -> bool
    requires marks { AreMarks case.now tight.now fixed.now }
    requires sized { IsSized case.now dict.now }
    requires placed { IsPlaced case.now dict.now }
    requires c { IsCandidate case.now tight.now stage dict.now goal_row col down c }
    requires b { IsCandidate case.now tight.now stage dict.now goal_row col down b }
    requires apart { c.row ≢ b.row }
    requires tie { lead case.now tight.now dict.now col down c.row b.row 0 ≡ pos 0 }
    ensures { IsTrue result ↔ IsSooner case.now tight.now dict.now col down c.row b.row }
{
    let own = own_earliest(case, tight, dict, stage, goal_row, col, down, c, b);
    let left = earliest_in(
        case, tight, fixed, dict, stage, goal_row, col, down, c, b, own, c.row,
    );
    let both = earliest_in(
        case, tight, fixed, dict, stage, goal_row, col, down, c, b, left, b.row,
    );
    both.sooner
}
