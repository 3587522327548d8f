//! The case behind an edit.
ghost use Rattle.std.specs.Prelude.{◌≡◌, IfOk};
ghost use Rattle.lpcc_case.specs.Cases.{IsCase};
ghost use Rattle.case_edits.specs.Edits.{MayBeMade, edited, right_side, with_constraints, with_right_sides};

use crate::Edit;
use lp_base::Sequence;
use lpcc_case::{Case, Constraint};
use sense::Sense;
use std::alloc::{AllocError, Global};

/// The right side of the constraint of this number, where that of one may be changed.
fn right_side(changed: Option<(u32, i64)>, number: usize, constraint: &Constraint) -> i64
    ensures { result ≡ right_side changed number constraint.now.rhs }
{
    match changed {
        Some((con, rhs)) if con as usize == number => rhs,
        _ => constraint.rhs,
    }
}

/// An equal constraint but for its right side, which may be changed.
fn copy_with(
    alloc: Global,
    constraint: &Constraint,
    changed: Option<(u32, i64)>,
    number: usize,
) -> Result<Constraint, AllocError>
    ensures { IfOk result (λ made. made ≡ record constraint.now { rhs = right_side changed number constraint.now.rhs }) }
{
    Ok(Constraint {
        kind: constraint.kind,
        terms: constraint.terms.copy(alloc)?,
        rhs: right_side(changed, number, constraint),
    })
}

/// Equal constraints, but for the right side of one that may be changed.
fn copies_with(
    alloc: Global,
    constraints: &[Constraint],
    changed: Option<(u32, i64)>,
) -> Result<Vec<Constraint>, AllocError>
    ensures { IfOk result (λ made. made.items ≡ with_right_sides changed constraints.now) }
{
    let mut made = Vec::new(alloc);
    for (number, constraint) in constraints.iter().enumerate() {
        made.push(copy_with(alloc, constraint, changed, number)?)?;
    }
    Ok(made)
}

/// The case with these constraints in the place of its own.
fn with_constraints(
    alloc: Global,
    case: &Case,
    constraints: Vec<Constraint>,
) -> Result<Case, AllocError>
    requires { IsCase (with_constraints constraints.items case.now) }
    ensures { IfOk result (λ made. made ≡ with_constraints constraints.items case.now) }
{
    let cost = Sequence::of_vec(Vec::from_slice(alloc, case.cost())?);
    let pairs = Sequence::of_vec(Vec::from_slice(alloc, case.pairs())?);
    Ok(Case::of_parts(
        case.columns(),
        cost,
        case.scale(),
        case.offset(),
        case.sense(),
        Sequence::of_vec(constraints),
        pairs,
    ))
}

fn add(alloc: Global, case: &Case, constraint: Constraint) -> Result<Case, AllocError>
    requires { MayBeMade case.now (Edit.Add constraint) }
    ensures { IfOk result (λ made. made ≡ edited (Edit.Add constraint) case.now) }
{
    let mut constraints = copies_with(alloc, case.constraints(), None)?;
    constraints.push(constraint)?;
    with_constraints(alloc, case, constraints)
}

fn tighten(alloc: Global, case: &Case, con: u32, rhs: i64) -> Result<Case, AllocError>
    requires { MayBeMade case.now (Edit.Tighten con rhs) }
    ensures { IfOk result (λ made. made ≡ edited (Edit.Tighten con rhs) case.now) }
{
    let constraints = copies_with(alloc, case.constraints(), Some((con, rhs)))?;
    with_constraints(alloc, case, constraints)
}

fn with_cost(alloc: Global, case: &Case, cost: Sequence<i64>) -> Result<Case, AllocError>
    requires { MayBeMade case.now (Edit.Cost cost) }
    ensures { IfOk result (λ made. made ≡ edited (Edit.Cost cost) case.now) }
{
    let constraints = copies_with(alloc, case.constraints(), None)?;
    let pairs = Sequence::of_vec(Vec::from_slice(alloc, case.pairs())?);
    Ok(Case::of_parts(
        case.columns(),
        cost,
        1,
        0,
        Sense::Min,
        Sequence::of_vec(constraints),
        pairs,
    ))
}

/// The case behind an edit that may be made.
///
/// # Errors
///
/// Want of memory alone.
pub fn edited(alloc: Global, case: &Case, edit: Edit) -> Result<Case, AllocError>
    requires { MayBeMade case.now edit }
    ensures { IfOk result (λ made. made ≡ edited edit case.now) }
{
    match edit {
        Edit::Add(constraint) => add(alloc, case, constraint),
        Edit::Tighten { con, rhs } => tighten(alloc, case, con, rhs),
        Edit::Cost(cost) => with_cost(alloc, case, cost),
    }
}
