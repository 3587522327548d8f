//! Whether an edit may be made.
ghost use Rattle.std.specs.Prelude.{◌≡◌, ◌≢◌, ◌<◌, ◌↔◌, ◌≤ℤ◌, All, IfErr, IsTrue, OnOk, pos, slice_index_or};
ghost use Rattle.lpcc_case.specs.Cases.{FitsCase};
ghost use Rattle.lpcc_case.specs.Instance.{no_constraint};
ghost use Rattle.case_edits.specs.Edits.{AreTerms, FitsLimits, HasParts, IsRefusedBy, MayBeMade, Tightens};

use crate::{Edit, EditFault};
use lp_base::{LARGEST_OF_CASE, is_ascending};
use lpcc_case::{Case, Constraint, Kind, MOST_CONSTRAINTS};

/// Whether each term names a column, and none is zero.
fn name_columns(columns: u32, terms: &[(u32, i64)]) -> bool
    ensures { IsTrue result ↔ All (λ t. (t.0 < columns) × (t.1 ≢ pos 0)) terms.now }
{
    terms.iter().all(|term| term.0 < columns && term.1 != 0)
}

/// Whether the terms name columns that ascend strictly, and none is zero.
fn are_terms(columns: u32, terms: &[(u32, i64)]) -> bool
    ensures { IsTrue result ↔ AreTerms columns terms.now }
{
    is_ascending(terms) && name_columns(columns, terms)
}

/// Whether the case has what the edit names.
fn has_parts(case: &Case, edit: &Edit) -> bool
    ensures { IsTrue result ↔ HasParts case.now edit.now }
{
    match edit {
        Edit::Add(constraint) => are_terms(case.columns(), constraint.terms.as_slice()),
        Edit::Tighten { con, .. } => (*con as usize) < case.constraints().len(),
        Edit::Cost(cost) => cost.len() == case.columns() as usize,
    }
}

/// Whether the constraint of this number is an inequality whose right side is not above this one.
fn is_at_most(constraints: &[Constraint], con: u32, rhs: i64) -> bool
    ensures { IsTrue result ↔ (((slice_index_or constraints.now con no_constraint).kind ≡ Kind.Ge)
        × ((slice_index_or constraints.now con no_constraint).rhs ≤ℤ rhs)) }
{
    match constraints.get(con as usize) {
        Some(constraint) => constraint.kind == Kind::Ge && constraint.rhs <= rhs,
        None => false,
    }
}

/// Whether the edit tightens an inequality, where it changes a right side.
fn tightens(case: &Case, edit: &Edit) -> bool
    ensures { IsTrue result ↔ Tightens case.now edit.now }
{
    match edit {
        Edit::Tighten { con, rhs } => is_at_most(case.constraints(), *con, *rhs),
        Edit::Add(_) | Edit::Cost(_) => true,
    }
}

fn fits_case(number: i64) -> bool
    ensures { IsTrue result ↔ FitsCase number }
{
    u128::from(number.unsigned_abs()) <= LARGEST_OF_CASE
}

fn coefficients_fit(terms: &[(u32, i64)]) -> bool
    ensures { IsTrue result ↔ All (λ t. FitsCase t.1) terms.now }
{
    terms.iter().all(|term| fits_case(term.1))
}

fn costs_fit(numbers: &[i64]) -> bool
    ensures { IsTrue result ↔ All FitsCase numbers.now }
{
    numbers.iter().all(|number| fits_case(*number))
}

/// Whether the case that the edit leads to keeps the limits of a case.
fn fits_limits(case: &Case, edit: &Edit) -> bool
    ensures { IsTrue result ↔ FitsLimits case.now edit.now }
{
    match edit {
        Edit::Add(constraint) => {
            case.constraints().len() < MOST_CONSTRAINTS
                && fits_case(constraint.rhs)
                && coefficients_fit(constraint.terms.as_slice())
        }
        Edit::Tighten { rhs, .. } => fits_case(*rhs),
        Edit::Cost(cost) => costs_fit(cost.as_slice()),
    }
}

/// Whether the edit may be made, and if not, why not. It takes no memory.
pub fn judge(case: &Case, edit: &Edit) -> Result<(), EditFault>
    ensures ok { OnOk result (MayBeMade case.now edit.now) }
    ensures err { IfErr result (IsRefusedBy case.now edit.now) }
{
    if !has_parts(case, edit) {
        return Err(EditFault::NoSuch);
    }
    if !tightens(case, edit) {
        return Err(EditFault::Loosens);
    }
    if !fits_limits(case, edit) {
        return Err(EditFault::Limit);
    }
    Ok(())
}
