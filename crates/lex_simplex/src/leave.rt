//! Which form leaves: of those that reach 0, the one that reaches it first.
ghost use Rattle.std.specs.Prelude.{◌≡◌, ◌≢◌, ◌≤◌, ◌<◌, ◌^◌, ◌↔◌, pos, int_lt, length, unsigned_abs, ℕ, ◌+◌, IsTrue, Some, IfSome, IfNone};
ghost use Rattle.lp_base.specs.Numbers.{IsNarrow};
ghost use Rattle.walks.specs.Duals.{IsPlaced};
ghost use Rattle.walks.specs.Steps.{Blocks, IsLeaving, IsSized, IsSooner, rate};
ghost use Rattle.lex_simplex.specs.Marks.{AreMarks};
ghost use Rattle.lex_simplex.specs.Ratios.{AreCandidates, IsCandidate, SoonestUpto, best_row, lead};

use crate::tie::{difference_of_products, sooner_by_eps, turned};
use dict::Dict;
use lpcc_case::{Case, Form};
use nogoods::NoGood;

/// A row whose form reaches 0, with the numbers by which it is compared: the size of its entry at
/// the column that enters, how far its form is from 0 by the constant alone, both times the row's
/// denominator, and whether its form rises.
#[derive(Clone, Copy)]
pub struct Candidate {
    pub row: u32,
    pub size: i64,
    pub far: i64,
    pub rises: bool,
}

/// How the form of the row changes, times its denominator.
#[inline(always)]
fn rate_of(dict: &Dict, row: u32, col: u32, down: bool) -> i64
    requires row { row < length dict.now.rows }
    ensures value { result ≡ rate dict.now col down row }
    ensures narrow { IsNarrow result }
{
    turned(down, dict.entry(row, col))
}

/// Whether the form of the row may reach 0: it is a constraint that is not fixed, and its stage has
/// come.
#[inline(always)]
fn may_block(
    case: &Case,
    tight: &NoGood,
    fixed: &[bool],
    dict: &Dict,
    stage: u32,
    goal_row: u32,
    col: u32,
    down: bool,
    i: u32,
) -> bool
    requires marks { AreMarks case.now tight.now fixed.now }
    requires placed { IsPlaced case.now dict.now }
    requires i { i < length dict.now.rows }
    ensures { Blocks case.now tight.now stage dict.now goal_row col down i → IsTrue result }
{
    match dict.basic(i) {
        Form::Con(k) => k <= stage && !fixed[k as usize],
        _ => false,
    }
}

/// Whether the form of row i, which changes at this speed, reaches 0.
#[inline(always)]
fn blocks(
    case: &Case,
    tight: &NoGood,
    fixed: &[bool],
    dict: &Dict,
    stage: u32,
    goal_row: u32,
    col: u32,
    down: bool,
    i: u32,
    speed: i64,
) -> bool
    requires marks { AreMarks case.now tight.now fixed.now }
    requires placed { IsPlaced case.now dict.now }
    requires i { i < length dict.now.rows }
    requires basic { i < length dict.now.basic }
    requires speed { speed ≡ rate dict.now col down i }
    ensures { IsTrue result ↔ Blocks case.now tight.now stage dict.now goal_row col down i }
{
    match dict.basic(i) {
        Form::Con(k) => !fixed[k as usize]
            && (k < stage && speed < 0 || i == goal_row && k == stage && speed > 0),
        _ => false,
    }
}

/// The numbers of a row whose form reaches 0.
#[inline(always)]
fn candidate_of(
    case: &Case,
    tight: &NoGood,
    dict: &Dict,
    stage: u32,
    goal_row: u32,
    col: u32,
    down: bool,
    i: u32,
    speed: i64,
) -> Candidate
    requires i { i < length dict.now.rows }
    requires speed { speed ≡ rate dict.now col down i }
    requires narrow { IsNarrow speed }
    requires blocks { Blocks case.now tight.now stage dict.now goal_row col down i }
    ensures candidate { IsCandidate case.now tight.now stage dict.now goal_row col down result }
    ensures row { result.row ≡ i }
{
    let rises = speed > 0;
    Candidate {
        row: i,
        size: turned(!rises, speed),
        far: turned(rises, dict.constant(i)),
        rises,
    }
}

/// Row i with its numbers, where its form reaches 0.
#[inline(always)]
fn candidate_at(
    case: &Case,
    tight: &NoGood,
    fixed: &[bool],
    dict: &Dict,
    stage: u32,
    goal_row: u32,
    col: u32,
    down: bool,
    i: u32,
) -> Option<Candidate>
    requires marks { AreMarks case.now tight.now fixed.now }
    requires sized { IsSized case.now dict.now }
    requires placed { IsPlaced case.now dict.now }
    requires i { i < length dict.now.rows }
    ensures some { IfSome result (IsCandidate case.now tight.now stage dict.now goal_row col down) }
    ensures row { IfSome result (λ c. c.row ≡ i) }
    ensures none { IfNone result (Blocks case.now tight.now stage dict.now goal_row col down i → ⊥) }
{
    if !may_block(case, tight, fixed, dict, stage, goal_row, col, down, i) {
        return None;
    }
    let speed = rate_of(dict, i, col, down);
    if !blocks(
        case, tight, fixed, dict, stage, goal_row, col, down, i, speed,
    ) {
        return None;
    }
    Some(candidate_of(case, tight, dict, stage, goal_row, col, down, i, speed))
}

/// How much later the form of b reaches 0, by the constants.
#[inline(always)]
fn lead_of(
    case: &Case,
    tight: &NoGood,
    dict: &Dict,
    stage: u32,
    goal_row: u32,
    col: u32,
    down: bool,
    c: Candidate,
    b: Candidate,
) -> i128
    requires c { IsCandidate case.now tight.now stage dict.now goal_row col down c }
    requires b { IsCandidate case.now tight.now stage dict.now goal_row col down b }
    ensures value { result ≡ lead case.now tight.now dict.now col down c.row b.row 0 }
    ensures small { unsigned_abs result < 2 ^ 127 }
{
    difference_of_products(c.size, b.far, b.size, c.far)
}

/// Whether the form of c reaches 0 before that of b.
#[inline(always)]
fn sooner(
    case: &Case,
    tight: &NoGood,
    fixed: &[bool],
    dict: &Dict,
    stage: u32,
    goal_row: u32,
    col: u32,
    down: bool,
    c: Candidate,
    b: Candidate,
) -> bool
    requires marks { AreMarks case.now tight.now fixed.now }
    requires sized { IsSized case.now dict.now }
    requires placed { IsPlaced case.now dict.now }
    requires c { IsCandidate case.now tight.now stage dict.now goal_row col down c }
    requires b { IsCandidate case.now tight.now stage dict.now goal_row col down b }
    requires apart { c.row ≢ b.row }
    ensures { IsTrue result ↔ IsSooner case.now tight.now dict.now col down c.row b.row }
{
    let lead = lead_of(case, tight, dict, stage, goal_row, col, down, c, b);
    if lead != 0 {
        return lead > 0;
    }
    sooner_by_eps(case, tight, fixed, dict, stage, goal_row, col, down, c, b)
}

/// The sooner of the form of c and that of b, which is the soonest of the rows before.
#[inline(always)]
fn sooner_of_both(
    case: &Case,
    tight: &NoGood,
    fixed: &[bool],
    dict: &Dict,
    stage: u32,
    goal_row: u32,
    col: u32,
    down: bool,
    c: Candidate,
    b: Candidate,
) -> Candidate
    requires marks { AreMarks case.now tight.now fixed.now }
    requires sized { IsSized case.now dict.now }
    requires placed { IsPlaced case.now dict.now }
    requires c { IsCandidate case.now tight.now stage dict.now goal_row col down c }
    requires b { IsCandidate case.now tight.now stage dict.now goal_row col down b }
    requires soonest { SoonestUpto case.now tight.now stage dict.now goal_row col down c.row (Some b.row) }
    ensures soonest { SoonestUpto case.now tight.now stage dict.now goal_row col down (c.row + 1) (Some result.row) }
    ensures candidate { IsCandidate case.now tight.now stage dict.now goal_row col down result }
{
    if sooner(case, tight, fixed, dict, stage, goal_row, col, down, c, b) {
        c
    } else {
        b
    }
}

/// The sooner of the form found so far and that of row i, where it reaches 0.
#[inline(always)]
fn sooner_of(
    case: &Case,
    tight: &NoGood,
    fixed: &[bool],
    dict: &Dict,
    stage: u32,
    goal_row: u32,
    col: u32,
    down: bool,
    best: Option<Candidate>,
    i: u32,
) -> Option<Candidate>
    requires marks { AreMarks case.now tight.now fixed.now }
    requires sized { IsSized case.now dict.now }
    requires placed { IsPlaced case.now dict.now }
    requires i { i < length dict.now.rows }
    requires best { SoonestUpto case.now tight.now stage dict.now goal_row col down i (best_row best) }
    requires numbers { AreCandidates case.now tight.now stage dict.now goal_row col down best }
    ensures soonest { SoonestUpto case.now tight.now stage dict.now goal_row col down (i + 1) (best_row result) }
    ensures numbers { AreCandidates case.now tight.now stage dict.now goal_row col down result }
{
    match candidate_at(case, tight, fixed, dict, stage, goal_row, col, down, i) {
        None => best,
        Some(c) => match best {
            None => Some(c),
            Some(b) => Some(sooner_of_both(
                case, tight, fixed, dict, stage, goal_row, col, down, c, b,
            )),
        },
    }
}

/// The row of the form that leaves, or none where no form reaches 0.
pub fn leaving(
    case: &Case,
    tight: &NoGood,
    fixed: &[bool],
    dict: &Dict,
    stage: u32,
    goal_row: u32,
    col: u32,
    down: bool,
) -> Option<u32>
    requires marks { AreMarks case.now tight.now fixed.now }
    requires sized { IsSized case.now dict.now }
    requires placed { IsPlaced case.now dict.now }
    ensures some { IfSome result (λ r. IsLeaving case.now tight.now stage dict.now goal_row col down r) }
    ensures none { IfNone result ((i : ℕ) → i < length dict.now.rows → Blocks case.now tight.now stage dict.now goal_row col down i → ⊥) }
{
    let mut best: Option<Candidate> = None;
    for i in 0..dict.rows() {
        best = sooner_of(
            case, tight, fixed, dict, stage, goal_row, col, down, best, i,
        );
    }
    match best {
        None => None,
        Some(c) => Some(c.row),
    }
}
