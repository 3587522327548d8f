//! The relaxation of a case.
ghost use Rattle.std.specs.Prelude.{◌≡◌, ◌≤ℤ◌, [], IfOk, pos};
ghost use Rattle.lpcc_case.specs.NarrowPoints.{IsPointOf};
ghost use Rattle.lpcc_case.specs.Values.{IsValue};
ghost use Rattle.lex_simplex.specs.Answers.{IsAnswer};
ghost use Rattle.lex_simplex.specs.Answers as lp;
ghost use Rattle.relaxing.specs.Relaxing.{AreEnough, IsEndOf, IsNotSpent};

use cuts::{active_cut_excludes_nothing_lower, passed_cut_is_true};
use lex_simplex::{LpAnswer, solve};
use lp_nums::Frac;
use lpcc_case::{Case, Point, Verdict, value_is_that_of_the_point, value_of};
use nogoods::NoGood;
use report::Relaxation;
use std::alloc::{AllocError, Global};

fn no_choices(alloc: Global) -> Result<NoGood, AllocError>
    ensures { IfOk result (λ no_good. no_good ≡ []) }
{
    match NoGood::from_choices(alloc, &[])? {
        Some(no_good) => Ok(no_good),
        None => unreachable!(),
    }
}

// The value of a point of the case.
fn value_at(case: &Case, point: &Point) -> Frac
    requires { IsPointOf case.now point.now }
    ensures { IsValue case.now point.now.z point.now.d result }
{
    let _pairs = case.pairs();
    value_of(case, point)
}

// What an answer to no tight choice says of the relaxation.
fn end_of(case: &Case, answer: LpAnswer, pivots: u64) -> Relaxation
    requires { IsAnswer case.now [] pivots answer }
    ensures end { IsEndOf case.now pivots result }
    ensures spent { lp.IsNotSpent answer → IsNotSpent result }
{
    passed_cut_is_true();
    active_cut_excludes_nothing_lower();
    value_is_that_of_the_point();
    match answer {
        LpAnswer::Infeasible(_) => Relaxation::Solved(Verdict::Infeasible),
        LpAnswer::Optimum(point, _) => Relaxation::Solved(Verdict::Optimal(value_at(case, &point))),
        LpAnswer::Unbounded(..) => Relaxation::Solved(Verdict::Unbounded),
        LpAnswer::Wide(place) => Relaxation::Wide(place),
        LpAnswer::Spent(place) => Relaxation::Spent(place),
    }
}

/// Solves the case without its pairs, with at most so many pivots in each stage of the walk.
///
/// # Errors
///
/// Want of memory alone.
pub fn relaxation_of(alloc: Global, case: &Case, pivots: u64) -> Result<Relaxation, AllocError>
    // A verdict is true of the case without its pairs; else the walk with no tight choice has the
    // end that is named.
    ensures end { IfOk result (IsEndOf case.now pivots) }
    // With as many pivots as there are choices of the columns they are never spent.
    ensures enough { AreEnough case.now pivots → IfOk result IsNotSpent }
{
    let none = no_choices(alloc)?;
    let answer = solve(alloc, case, &none, pivots)?;
    Ok(end_of(case, answer, pivots))
}
