//! The marks on the fixed constraints.
ghost use Rattle.std.specs.Prelude.{◌≡◌, ◌<◌, ◌||◌, ◌++◌, ◌∷◌, [], ℕ, length, map, slice_index_or, false, IfOk, OnOk};
ghost use Rattle.lpcc_case.specs.Pieces.{NamesPairs};
ghost use Rattle.walks.specs.Values.{is_chosen, is_equation};
ghost use Rattle.lex_simplex.specs.Marks.{AreMarks};

use lpcc_case::{Case, Constraint, Kind};
use nogoods::{Choice, NoGood};
use std::alloc::{AllocError, Global};

#[inline(always)]
fn put_mark(marks: &mut Vec<bool>, kind: Kind) -> Result<(), AllocError>
    ensures { OnOk result (marks.new.items ≡ marks.old.items ++ is_equation kind ∷ []) }
{
    marks.push(match kind {
        Kind::Eq => true,
        Kind::Ge => false,
    })?;
    Ok(())
}

/// Marks the equations.
fn equation_marks(alloc: Global, constraints: &[Constraint]) -> Result<Vec<bool>, AllocError>
    ensures { IfOk result (λ marks. marks.items ≡ map (λ c. is_equation c.kind) constraints.now) }
{
    let mut marks: Vec<bool> = Vec::with_capacity(alloc, constraints.len())?;
    for constraint in constraints {
        put_mark(&mut marks, constraint.kind)?;
    }
    Ok(marks)
}

/// Marks the constraint of each choice.
fn mark_chosen(case: &Case, choices: &[Choice], marks: &mut [bool])
    requires named { NamesPairs case.now choices.now }
    requires size { length marks.old ≡ length case.now.constraints }
    ensures size { length marks.new ≡ length marks.old }
    ensures chosen { (k : ℕ) → k < length marks.old → slice_index_or marks.new k false ≡ (slice_index_or marks.old k false || is_chosen case.now choices.now k) }
{
    for choice in choices {
        marks[case.chosen_number(*choice) as usize] = true;
    }
}

/// Marks the constraints that may not change: the equations, and those that the choices make tight.
pub fn fixed_marks(alloc: Global, case: &Case, tight: &NoGood) -> Result<Vec<bool>, AllocError>
    requires named { NamesPairs case.now tight.now }
    ensures { IfOk result (λ marks. AreMarks case.now tight.now marks.items) }
{
    let mut marks = equation_marks(alloc, case.constraints())?;
    mark_chosen(case, tight.choices(), &mut marks);
    Ok(marks)
}
