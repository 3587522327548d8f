//! What the workers of a run share, and what each of them holds.
ghost use Rattle.std.specs.Prelude.{◌≡◌, ◌<◌, All, IfOk, length};
ghost use Rattle.best.specs.Passes.{IsPassOf};
ghost use Rattle.crew.specs.Crews.{AreReachesOf};

use best::{Best, BestPass};
use cut_pool::Reach;
use desk::Desk;
use lpcc_case::{Case, Point};
use play::Options;
use std::alloc::{AllocError, Global};

/// The desk, and a reach for each worker.
#[tactic(auto, using(crate::proofs::CrewLaws::reaches_of))]
pub fn open_desk(
    alloc: Global,
    case: &Case,
    options: &Options,
) -> Result<(Desk, Vec<Reach>), AllocError>
    ensures some { IfOk result (λ made. 0 < length made.1.items) }
    ensures reaches { IfOk result (λ made. AreReachesOf case.now made.1.items) }
{
    let _workers = options.workers.number();
    let (desk, reaches) = Desk::create(alloc, case, options)?;
    Ok((desk, reaches))
}

/// The incumbent, and a pass for each worker.
#[tactic(auto, using(crate::proofs::CrewLaws::passes_of))]
pub fn open_best(
    alloc: Global,
    options: &Options,
) -> Result<(Best<Point>, Vec<BestPass<Point>>), AllocError>
    ensures some { IfOk result (λ made. 0 < length made.1.items) }
    ensures passes { IfOk result (λ made. All (IsPassOf made.0) made.1.items) }
{
    let (best, passes) = Best::<Point>::create(alloc, options.workers.number())?;
    Ok((best, passes))
}

/// The first reach, and the others.
#[tactic(auto, using(crate::proofs::CrewLaws::all_removed, crate::proofs::CrewLaws::first_all))]
pub fn first_reach(case: &Case, reaches: Vec<Reach>) -> (Reach, Vec<Reach>)
    requires some { 0 < length reaches.items }
    requires reaches { AreReachesOf case.now reaches.items }
    ensures first { result.0.case ≡ case.now }
    ensures others { AreReachesOf case.now result.1.items }
{
    let mut reaches = reaches;
    let first = reaches.remove(0);
    (first, reaches)
}

/// The first pass, and the others.
#[tactic(auto, using(crate::proofs::CrewLaws::all_removed, crate::proofs::CrewLaws::first_all))]
pub fn first_pass(
    best: &Best<Point>,
    passes: Vec<BestPass<Point>>,
) -> (BestPass<Point>, Vec<BestPass<Point>>)
    requires some { 0 < length passes.items }
    requires passes { All (IsPassOf best.now) passes.items }
    ensures first { IsPassOf best.now result.0 }
    ensures others { All (IsPassOf best.now) result.1.items }
{
    let mut passes = passes;
    let first = passes.remove(0);
    (first, passes)
}
