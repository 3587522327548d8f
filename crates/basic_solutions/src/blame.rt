//! The choices that multipliers need.
ghost use Rattle.std.specs.Prelude.{◌≡◌, ◌<◌, ◌++◌, ◌∷◌, [], ℕ, int_lt, pos, length, slice_index_or, slice_set, false, IfOk, OnOk, if◌then◌else◌};
ghost use Rattle.lp_base.specs.Numbers.{narrow_bound};
ghost use Rattle.lpcc_case.specs.Pieces.{NamesPairs};
ghost use Rattle.lpcc_case.specs.Points.{coefficient};
ghost use Rattle.dict.specs.Terms.{AreTerms};
ghost use Rattle.walks.specs.Duals.{blamed};

use lpcc_case::Case;
use nogoods::{Choice, NoGood};
use std::alloc::{AllocError, Global};

/// Marks the constraints with a negative multiplier.
fn mark_negative(mult: &[(u32, i64)], marks: &mut [bool])
    requires terms { AreTerms (narrow_bound) 0 (length marks.old) mult.now }
    requires unmarked { (k : ℕ) → slice_index_or marks.old k false ≡ false }
    ensures size { length marks.new ≡ length marks.old }
    ensures marks { (k : ℕ) → k < length marks.old → slice_index_or marks.new k false ≡ int_lt (coefficient mult.now k) (pos 0) }
{
    for multiplier in mult {
        marks[multiplier.0 as usize] = multiplier.1 < 0;
    }
}

/// Takes the choice over, where its constraint is marked, and takes the mark away.
fn put_choice(
    out: &mut Vec<Choice>,
    marks: &mut Vec<bool>,
    number: usize,
    choice: Choice,
) -> Result<(), AllocError>
    requires { number < length marks.old.items }
    ensures choices { OnOk result (out.new.items ≡ if slice_index_or marks.old.items number false then out.old.items ++ choice ∷ [] else out.old.items) }
    ensures marks { OnOk result (marks.new.items ≡ slice_set marks.old.items number false) }
{
    if marks[number] {
        out.push(choice)?;
    }
    marks[number] = false;
    Ok(())
}

fn blamed_choices(
    alloc: Global,
    case: &Case,
    mult: &[(u32, i64)],
    choices: &[Choice],
) -> Result<Vec<Choice>, AllocError>
    requires named { NamesPairs case.now choices.now }
    requires terms { AreTerms (narrow_bound) 0 (length case.now.constraints) mult.now }
    ensures { IfOk result (λ out. out.items ≡ blamed case.now mult.now choices.now) }
{
    let mut marks = vec![in alloc; false; case.constraints().len()]?;
    mark_negative(mult, &mut marks);
    let mut out: Vec<Choice> = Vec::new(alloc);
    for choice in choices {
        let number = case.chosen_number(*choice) as usize;
        put_choice(&mut out, &mut marks, number, *choice)?;
    }
    Ok(out)
}

/// The choices whose side has a negative multiplier; of those that name one constraint the first.
pub fn blamed_of(
    alloc: Global,
    case: &Case,
    mult: &[(u32, i64)],
    tight: &NoGood,
) -> Result<NoGood, AllocError>
    requires named { NamesPairs case.now tight.now }
    requires terms { AreTerms (narrow_bound) 0 (length case.now.constraints) mult.now }
    ensures { IfOk result (λ ng. ng ≡ blamed case.now mult.now tight.now) }
{
    let choices = blamed_choices(alloc, case, mult, tight.choices())?;
    match NoGood::from_choices(alloc, &choices)? {
        Some(ng) => Ok(ng),
        None => unreachable!(),
    }
}
