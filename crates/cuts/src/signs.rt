//! Whether each multiplier may have its sign.
ghost use Rattle.std.specs.Prelude.{◌≡◌, ◌<◌, ◌≤◌, ◌↔◌, ◌<ℤ◌, ℕ, pos, IsTrue, Any, false, length, slice_index_or};
ghost use Rattle.lpcc_case.specs.Instance.{chosen_number, no_constraint};
ghost use Rattle.lpcc_case.specs.Pieces.{NamesPairs};
ghost use Rattle.cuts.specs.Cuts.{HasSigns, IsIndexed};

use lpcc_case::{Case, Constraint, Kind, MOST_CONSTRAINTS};
use nogoods::Choice;

/// Marks the constraint of each choice.
fn mark_chosen(case: &Case, choices: &[Choice], marks: &mut [bool])
    requires named { NamesPairs case.now choices.now }
    requires room { length case.now.constraints ≤ length marks.old }
    requires unmarked { (k : ℕ) → slice_index_or marks.old k false ≡ false }
    ensures { (k : ℕ) → IsTrue (slice_index_or marks.new k false)
        ↔ Any (λ c. chosen_number case.now c ≡ k) choices.now }
{
    for choice in choices {
        marks[case.chosen_number(*choice) as usize] = true;
    }
}

/// Whether a multiplier is negative and stands on an inequality, so that its constraint is to be
/// chosen.
fn needs_choice(constraints: &[Constraint], multiplier: (u32, i64)) -> bool
    requires { multiplier.0 < length constraints.now }
    ensures { IsTrue result ↔ (multiplier.1 <ℤ pos 0)
        × ((slice_index_or constraints.now multiplier.0 no_constraint).kind ≡ Kind.Ge) }
{
    let (number, y) = multiplier;
    y < 0 && constraints[number as usize].kind == Kind::Ge
}

/// Whether each negative multiplier stands on an equation, or on the constraint of one of the
/// choices. It takes no memory.
pub fn has_signs(case: &Case, choices: &[Choice], mult: &[(u32, i64)]) -> bool
    requires { IsIndexed case.now choices.now mult.now }
    ensures { IsTrue result ↔ HasSigns case.now choices.now mult.now }
{
    let constraints = case.constraints();
    let mut marks = [false; MOST_CONSTRAINTS];
    mark_chosen(case, choices, &mut marks);
    for multiplier in mult {
        if needs_choice(constraints, *multiplier) && !marks[multiplier.0 as usize] {
            return false;
        }
    }
    true
}
