//! The test of a cut.
ghost use Rattle.std.specs.Prelude.{◌≡◌, ◌↔◌, ◌≤◌, ◌≤ℤ◌, ◌*ℤ◌, pos, Some, IsTrue, IfOk, IfSome, length};
ghost use Rattle.std.specs.Option.{option_copied};
ghost use Rattle.cuts.specs.Cuts.{Passes};
ghost use Rattle.cuts.specs.declared.cut.Cut.TheVariants as cut_of;
ghost use Rattle.reasons.specs.Reasons.{IsLimit};
ghost use Rattle.probe.specs.Answers.{IsCutWithin};

use crate::within::is_within;
use cuts::{Cut, check_ray, point_bound};
use general_simplex::Multipliers;
use lp_base::Sequence;
use lpcc_case::{Case, Point};
use nogoods::{Choice, NoGood};
use reasons::is_bound_for;
use std::alloc::{AllocError, Global};

fn is_not_longer(ng: &NoGood, tight: &NoGood) -> bool
    ensures { IsTrue result ↔ length ng.now ≤ length tight.now }
{
    ng.choices().len() <= tight.choices().len()
}

fn passes_as_ray(case: &Case, ng: &NoGood, mult: &Sequence<(u32, i64)>) -> bool
    ensures { IsTrue result → Passes case.now (cut_of.Ray ng.now mult.now) }
{
    match check_ray(case, ng, mult.as_slice()) {
        Ok(()) => true,
        Err(_) => false,
    }
}

/// The bound `v` of a point cut that passes.
fn passed_bound(case: &Case, ng: &NoGood, mult: &Sequence<(u32, i64)>, e: i64) -> Option<i128>
    ensures passes { IfSome result (λ v. Passes case.now (cut_of.Point ng.now mult.now e v)) }
    ensures positive { IfSome result (λ v. pos 1 ≤ℤ e) }
{
    match point_bound(case, ng, mult.as_slice(), e) {
        Ok(v) => Some(v),
        Err(_) => None,
    }
}

fn tested_ray(
    case: &Case,
    tight: &NoGood,
    limit: Option<&Point>,
    ng: NoGood,
    mult: Sequence<(u32, i64)>,
) -> Option<Cut>
    ensures { IfSome result (IsCutWithin case.now (option_copied limit.entry) tight.now) }
{
    if !is_not_longer(&ng, tight) || !is_within(&ng, tight) || !passes_as_ray(case, &ng, &mult) {
        return None;
    }
    Some(Cut::Ray { ng, mult })
}

fn tested_bound(
    case: &Case,
    tight: &NoGood,
    limit: &Point,
    ng: NoGood,
    mult: Sequence<(u32, i64)>,
    e: i64,
) -> Option<Cut>
    requires { pos 1 ≤ℤ limit.now.d }
    ensures { IfSome result (IsCutWithin case.now (Some limit.now) tight.now) }
{
    if !is_not_longer(&ng, tight) || !is_within(&ng, tight) {
        return None;
    }
    match passed_bound(case, &ng, &mult, e) {
        Some(v) if is_bound_for(limit, v, e) => Some(Cut::Point { ng, mult, e, v }),
        _ => None,
    }
}

/// The cut of a no-good and multipliers, where it passes the test, has its choices among these and
/// is active against the limit.
fn tested(
    case: &Case,
    tight: &NoGood,
    limit: Option<&Point>,
    ng: NoGood,
    mult: Sequence<(u32, i64)>,
    e: i64,
) -> Option<Cut>
    requires { IsLimit case.now (option_copied limit) }
    ensures { IfSome result (IsCutWithin case.now (option_copied limit.entry) tight.now) }
{
    if e == 0 {
        return tested_ray(case, tight, limit, ng, mult);
    }
    match limit {
        None => None,
        Some(own) => tested_bound(case, tight, own, ng, mult, e),
    }
}

/// The number of the constraint that a choice makes tight.
pub fn number_of(case: &Case, choice: Choice) -> Option<u32> {
    if (choice.pair as usize) < case.pairs().len() {
        Some(case.chosen_number(choice))
    } else {
        None
    }
}

fn is_negative_at(terms: &[(u32, i64)], number: u32) -> bool {
    for term in terms {
        if term.0 == number {
            return term.1 < 0;
        }
    }
    false
}

fn is_taken(case: &Case, chosen: &[Choice], number: u32) -> bool {
    for choice in chosen {
        if number_of(case, *choice) == Some(number) {
            return true;
        }
    }
    false
}

/// Those of the choices whose constraint has a negative multiplier, one for each constraint.
fn chosen_of(
    alloc: Global,
    case: &Case,
    tight: &[Choice],
    terms: &[(u32, i64)],
) -> Result<Vec<Choice>, AllocError> {
    let mut chosen = Vec::new(alloc);
    for choice in tight {
        if let Some(number) = number_of(case, *choice)
            && is_negative_at(terms, number)
            && !is_taken(case, chosen.as_slice(), number)
        {
            chosen.push(*choice)?;
        }
    }
    Ok(chosen)
}

/// The cut of multipliers that were found: its no-good has the choices whose constraint has a
/// negative multiplier. None where it fails its test.
pub fn tested_cut(
    alloc: Global,
    case: &Case,
    tight: &NoGood,
    limit: Option<&Point>,
    found: Multipliers,
) -> Result<Option<Cut>, AllocError>
    requires { IsLimit case.now (option_copied limit) }
    ensures { IfOk result (λ made. IfSome made (IsCutWithin case.now (option_copied limit.entry) tight.now)) }
{
    let Multipliers { terms, e } = found;
    let chosen = chosen_of(alloc, case, tight.choices(), terms.as_slice())?;
    match NoGood::from_choices(alloc, chosen.as_slice())? {
        None => Ok(None),
        Some(ng) => Ok(tested(case, tight, limit, ng, Sequence::of_vec(terms), e)),
    }
}
