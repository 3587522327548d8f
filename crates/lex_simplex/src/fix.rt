//! The exchanges of the fixed constraints.
ghost use Rattle.std.specs.Prelude.{◌≡◌, ◌<◌, ◌+◌, ℕ, true, length, IfNone, IfOk, IfSome, OnOk};
ghost use Rattle.lpcc_case.specs.declared.form.Form.TheVariants as form;
ghost use Rattle.dict.specs.Dictionaries.{form_at, row_at};
ghost use Rattle.walks.specs.Duals.{IsPlaced, NoneFree};
ghost use Rattle.walks.specs.Steps.{IsFixing, IsSized};
ghost use Rattle.walks.specs.Values.{is_fixed};
ghost use Rattle.walks.specs.Walks.{IsOnWalk, IsSkipped};
ghost use Rattle.lex_simplex.specs.Marks.{AreMarks};
ghost use Rattle.lex_simplex.specs.Rounds.{IsEnd, IsNextLook};

use crate::enter::exchangeable;
use crate::next::row_of;
use crate::values::constraints_of;
use crate::walk::{End, Walk};
use dict::{Dict, PivotFault};
use lpcc_case::Case;
use nogoods::NoGood;
use std::alloc::{AllocError, Global};

/// What is to be done with the next constraint that is looked at.
#[derive(Clone, Copy)]
pub enum Look {
    /// It is not fixed, or is passed over.
    Skip,
    /// It stands in this row, and the form at this column enters.
    Exchange(u32, u32),
    /// It stands in this row and cannot be exchanged, and its constant is not 0.
    Inconsistent(u32),
}

/// What is to be done with fixed constraint k, which stands in this row.
fn look_in_row(case: &Case, tight: &NoGood, fixed: &[bool], dict: &Dict, k: u32, row: u32) -> Look
    requires marks { AreMarks case.now tight.now fixed.now }
    requires placed { IsPlaced case.now dict.now }
    requires row { row < length dict.now.rows }
    requires named { k < length case.now.constraints }
    requires form { form_at dict.now.basic row ≡ form.Con k }
    requires fixed { is_fixed case.now tight.now k ≡ true }
    ensures { IsNextLook case.now tight.now k dict.now result }
{
    match exchangeable(case, tight, fixed, dict, row) {
        Some(col) => Look::Exchange(row, col),
        None => if dict.constant(row) == 0 {
            Look::Skip
        } else {
            Look::Inconsistent(row)
        },
    }
}

/// What is to be done with constraint k.
fn look_at(case: &Case, tight: &NoGood, fixed: &[bool], dict: &Dict, k: u32) -> Look
    requires marks { AreMarks case.now tight.now fixed.now }
    requires sized { IsSized case.now dict.now }
    requires placed { IsPlaced case.now dict.now }
    requires named { k < length case.now.constraints }
    requires basic { (j : ℕ) → j < length dict.now.nonbasic → form_at dict.now.nonbasic j ≡ form.Con k → ⊥ }
    ensures { IsNextLook case.now tight.now k dict.now result }
{
    if !fixed[k as usize] {
        return Look::Skip;
    }
    match row_of(case, dict, k) {
        Some(row) => look_in_row(case, tight, fixed, dict, k, row),
        None => Look::Skip,
    }
}

impl Walk {
    /// What is to be done with the next constraint.
    fn look(&self, case: &Case, tight: &NoGood, fixed: &[bool]) -> Look
        requires marks { AreMarks case.now tight.now fixed.now }
        requires on { IsOnWalk case.now tight.now self.now }
        requires looked { self.now.looked < length case.now.constraints }
        ensures { IsNextLook case.now tight.now self.now.looked self.now.at result }
    {
        let _constraints = case.constraints();
        look_at(case, tight, fixed, self.dict(), self.looked())
    }

    /// Looks at the next constraint, and exchanges it where it is fixed and can be exchanged.
    fn look_on(
        &mut self,
        case: &Case,
        tight: &NoGood,
        fixed: &[bool],
    ) -> Result<Option<End>, AllocError>
        requires marks { AreMarks case.now tight.now fixed.now }
        requires on { IsOnWalk case.now tight.now self.old }
        requires looked { self.old.looked < length case.now.constraints }
        ensures on { OnOk result (IsOnWalk case.now tight.now self.new) }
        ensures looked { IfOk result (λ end. IfNone end (self.new.looked ≡ self.old.looked + 1)) }
        ensures stage { OnOk result (self.new.stage ≡ self.old.stage) }
        ensures pivots { OnOk result (self.new.pivots ≡ self.old.pivots) }
        ensures end { (budget : ℕ) → IfOk result (λ end. IfSome end (IsEnd case.now tight.now budget self.new)) }
    {
        match self.look(case, tight, fixed) {
            Look::Skip => {
                self.skip(case, tight);
                Ok(None)
            },
            Look::Inconsistent(row) => Ok(Some(End::Inconsistent(row))),
            Look::Exchange(row, col) => match self.fix(case, tight, row, col) {
                Ok(_) => Ok(None),
                Err(PivotFault::Wide(_)) => Ok(Some(End::Wide(row, col))),
                Err(PivotFault::NoMemory(fault)) => Err(fault),
            },
        }
    }
}

/// Exchanges the fixed constraints, in their order.
pub fn fix_all(
    case: &Case,
    tight: &NoGood,
    fixed: &[bool],
    walk: &mut Walk,
) -> Result<Option<End>, AllocError>
    requires marks { AreMarks case.now tight.now fixed.now }
    requires on { IsOnWalk case.now tight.now walk.old }
    requires looked { walk.old.looked ≡ 0 }
    ensures on { OnOk result (IsOnWalk case.now tight.now walk.new) }
    ensures looked { IfOk result (λ end. IfNone end (walk.new.looked ≡ length case.now.constraints)) }
    ensures stage { OnOk result (walk.new.stage ≡ walk.old.stage) }
    ensures pivots { OnOk result (walk.new.pivots ≡ walk.old.pivots) }
    ensures end { (budget : ℕ) → IfOk result (λ end. IfSome end (IsEnd case.now tight.now budget walk.new)) }
{
    for _ in 0..constraints_of(case) {
        if let Some(end) = walk.look_on(case, tight, fixed)? {
            return Ok(Some(end));
        }
    }
    Ok(None)
}
