//! What comes next in a stage.
ghost use Rattle.std.specs.Prelude.{◌≡◌, ◌≤◌, ◌<◌, ℕ, ℤ, pos, int_lt, IfSome, IfNone, IsTrue, length, ◌↔◌};
ghost use Rattle.lpcc_case.specs.declared.form.Form.TheVariants as form;
ghost use Rattle.dict.specs.Dictionaries.{entry_at, form_at};
ghost use Rattle.walks.specs.Steps.{IsStageRow, goes_down, is_last};
ghost use Rattle.walks.specs.Steps.{IsSized};
ghost use Rattle.walks.specs.Duals.{IsPlaced};
ghost use Rattle.lex_simplex.specs.Rounds.{IsNext};
ghost use Rattle.lex_simplex.specs.Marks.{AreMarks};

use crate::enter::entering;
use crate::leave::leaving;
use crate::values::{constraints_of, is_below, stands_in};
use dict::Dict;
use lpcc_case::Case;
use nogoods::NoGood;

/// What comes next in a stage.
#[derive(Clone, Copy)]
pub enum Next {
    Raised,
    Stuck(u32),
    Open(u32, u32),
    Pivot(u32, u32),
}

/// The row of constraint k.
pub fn row_of(case: &Case, dict: &Dict, k: u32) -> Option<u32>
    requires { IsSized case.now dict.now }
    ensures some { IfSome result (λ r. (r < length dict.now.rows) × (form_at dict.now.basic r ≡ form.Con k)) }
    ensures none { IfNone result ((i : ℕ) → i < length dict.now.rows → form_at dict.now.basic i ≡ form.Con k → ⊥) }
{
    for i in 0..dict.rows() {
        if stands_in(dict, i, k) {
            return Some(i);
        }
    }
    None
}

/// Whether the form that enters goes down.
pub fn is_down(case: &Case, dict: &Dict, stage: u32, row: u32, col: u32) -> bool
    requires { row < length dict.now.rows }
    ensures { result ≡ goes_down case.now stage dict.now row col }
{
    let z = dict.entry(row, col);
    if falls(case, stage) { z > 0 } else { z < 0 }
}

fn falls(case: &Case, stage: u32) -> bool
    ensures { result ≡ is_last case.now stage }
{
    !(stage < constraints_of(case))
}

/// What comes next, where this is the stage's row and the stage is not at its end.
fn next_in_row(
    case: &Case,
    tight: &NoGood,
    fixed: &[bool],
    dict: &Dict,
    stage: u32,
    row: u32,
) -> Next
    requires marks { AreMarks case.now tight.now fixed.now }
    requires sized { IsSized case.now dict.now }
    requires placed { IsPlaced case.now dict.now }
    requires row { IsStageRow case.now tight.now stage dict.now row }
    ensures { IsNext case.now tight.now stage dict.now result }
{
    match entering(case, tight, fixed, dict, row, falls(case, stage)) {
        None => Next::Stuck(row),
        Some(col) => match leaving(
            case,
            tight,
            fixed,
            dict,
            stage,
            row,
            col,
            is_down(case, dict, stage, row, col),
        ) {
            None => Next::Open(row, col),
            Some(leaves) => Next::Pivot(leaves, col),
        },
    }
}

/// What comes next in the stage of a constraint that is not fixed.
fn next_raising(case: &Case, tight: &NoGood, fixed: &[bool], dict: &Dict, stage: u32) -> Next
    requires marks { AreMarks case.now tight.now fixed.now }
    requires sized { IsSized case.now dict.now }
    requires placed { IsPlaced case.now dict.now }
    requires stage { stage < length case.now.constraints }
    ensures { IsNext case.now tight.now stage dict.now result }
{
    if fixed[stage as usize] {
        return Next::Raised;
    }
    match row_of(case, dict, stage) {
        None => Next::Raised,
        Some(row) => {
            if is_below(case, tight, fixed, dict, row, stage) {
                next_in_row(case, tight, fixed, dict, stage, row)
            } else {
                Next::Raised
            }
        },
    }
}

/// What comes next in a stage.
pub fn what_next(case: &Case, tight: &NoGood, fixed: &[bool], dict: &Dict, stage: u32) -> Next
    requires marks { AreMarks case.now tight.now fixed.now }
    requires sized { IsSized case.now dict.now }
    requires placed { IsPlaced case.now dict.now }
    requires stage { stage ≤ length case.now.constraints }
    ensures { IsNext case.now tight.now stage dict.now result }
{
    if stage < constraints_of(case) {
        return next_raising(case, tight, fixed, dict, stage);
    }
    next_in_row(case, tight, fixed, dict, stage, stage)
}
