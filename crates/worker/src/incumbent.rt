//! What a worker offers to the best of all workers, and what it takes from there.
ghost use Rattle.best.specs.Passes.{IsPassOf};
ghost use Rattle.settling.specs.Known.{IsTrueKnowledge};

use best::{Best, BestPass};
use lpcc_case::{Case, Point};
use play::is_candidate;
use settling::Knowledge;
use std::alloc::{AllocError, Global};
use std::sync::Wait;

/// Offers the best point that is known, and takes the lowest point that any worker offered. What
/// came from there is used only after it has passed the tests of a feasible point.
pub fn exchange_best<R: Wait>(
    rt: &R,
    alloc: Global,
    case: &Case,
    best: &Best<Point>,
    pass: &mut BestPass<Point>,
    known: &mut Knowledge,
) -> Result<(), AllocError>
    requires pass { IsPassOf best.now pass.old }
    requires known { IsTrueKnowledge case.now known.old }
    ensures pass { IsPassOf best.now pass.new }
    ensures known { IsTrueKnowledge case.now known.new }
{
    let offer = known.copy_incumbent(alloc)?;
    let Some(lowest) = best.exchange(rt, alloc, pass, offer)? else {
        return Ok(());
    };
    if is_candidate(case, &lowest) {
        known.improve(case, lowest);
    }
    Ok(())
}
