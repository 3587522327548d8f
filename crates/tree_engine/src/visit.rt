//! The program of a node.
ghost use Rattle.std.specs.Prelude.{IfOk};
ghost use Rattle.std.specs.Option.{option_copied};
ghost use Rattle.lpcc_case.specs.Pieces.{NamesPairs};
ghost use Rattle.walks.specs.Ends.{IsPointAt};
ghost use Rattle.lex_simplex.specs.Answers.{IsAnswer, IsPointCutOf};
ghost use Rattle.reasons.specs.Reasons.{IsUnder};
ghost use Rattle.tree_engine.specs.Bests.{IsBest};
ghost use Rattle.tree_engine.specs.Nodes.{IsOpen, IsVisit};

use crate::loose::first_loose;
use crate::paths::first_free;
use cuts::Cut;
use lex_simplex::{LpAnswer, solve};
use lpcc_case::{Case, Point};
use nogoods::NoGood;
use probe::is_under;
use std::alloc::{AllocError, Global};

/// What the program of a node shows.
#[derive(Drop)]
pub enum Visit {
    /// None of its points is lower than the best one, by this cut.
    Closed(Cut),
    /// This is a new best point, and by this cut none of its points is lower.
    Improved(Point, Cut),
    /// It is to be split at this pair.
    Split(u32, LpAnswer),
    /// Every pair has a choice, and there is no optimum.
    Whole(LpAnswer),
}

fn of_lower(
    alloc: Global,
    case: &Case,
    path: &NoGood,
    best: Option<&Point>,
    pivots: u64,
    point: Point,
    cut: Cut,
) -> Result<Visit, AllocError>
    requires lower { IsUnder point (option_copied best) }
    requires point { IsPointAt case.now path.now point }
    requires cut { IsPointCutOf case.now path.now point cut }
    ensures { IfOk result (IsVisit case.now pivots (option_copied best.entry) path.now) }
{
    match first_loose(alloc, case, &point)? {
        Some(pair) => Ok(Visit::Split(pair, LpAnswer::Optimum(point, cut))),
        None => Ok(Visit::Improved(point, cut)),
    }
}

fn of_optimum(
    alloc: Global,
    case: &Case,
    path: &NoGood,
    best: Option<&Point>,
    pivots: u64,
    point: Point,
    cut: Cut,
) -> Result<Visit, AllocError>
    requires best { IsBest case.now (option_copied best) }
    requires point { IsPointAt case.now path.now point }
    requires cut { IsPointCutOf case.now path.now point cut }
    ensures { IfOk result (IsVisit case.now pivots (option_copied best.entry) path.now) }
{
    if is_under(case, &point, best) {
        of_lower(alloc, case, path, best, pivots, point, cut)
    } else {
        Ok(Visit::Closed(cut))
    }
}

fn of_open(case: &Case, path: &NoGood, best: Option<&Point>, pivots: u64, answer: LpAnswer) -> Visit
    requires named { NamesPairs case.now path.now }
    requires open { IsOpen answer }
    requires answer { IsAnswer case.now path.now pivots answer }
    ensures { IsVisit case.now pivots (option_copied best.entry) path.now result }
{
    match first_free(case, path) {
        Some(pair) => Visit::Split(pair, answer),
        None => Visit::Whole(answer),
    }
}

fn of_answer(
    alloc: Global,
    case: &Case,
    path: &NoGood,
    best: Option<&Point>,
    pivots: u64,
    answer: LpAnswer,
) -> Result<Visit, AllocError>
    requires named { NamesPairs case.now path.now }
    requires best { IsBest case.now (option_copied best) }
    requires answer { IsAnswer case.now path.now pivots answer }
    ensures { IfOk result (IsVisit case.now pivots (option_copied best.entry) path.now) }
{
    match answer {
        LpAnswer::Infeasible(cut) => Ok(Visit::Closed(cut)),
        LpAnswer::Optimum(point, cut) => of_optimum(alloc, case, path, best, pivots, point, cut),
        LpAnswer::Unbounded(point, ray) => {
            Ok(of_open(case, path, best, pivots, LpAnswer::Unbounded(point, ray)))
        },
        LpAnswer::Wide(at) => Ok(of_open(case, path, best, pivots, LpAnswer::Wide(at))),
        LpAnswer::Spent(at) => Ok(of_open(case, path, best, pivots, LpAnswer::Spent(at))),
    }
}

/// Solves the program of a node.
pub fn visited(
    alloc: Global,
    case: &Case,
    path: &NoGood,
    best: Option<&Point>,
    pivots: u64,
) -> Result<Visit, AllocError>
    requires named { NamesPairs case.now path.now }
    requires best { IsBest case.now (option_copied best) }
    ensures { IfOk result (IsVisit case.now pivots (option_copied best.entry) path.now) }
{
    let answer = solve(alloc, case, path, pivots)?;
    of_answer(alloc, case, path, best, pivots, answer)
}
