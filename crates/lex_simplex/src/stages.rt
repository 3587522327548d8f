//! The stages of a walk, and the walk as a whole.
ghost use Rattle.std.specs.Prelude.{◌≡◌, ◌≤◌, ◌<◌, IfNone, IfOk, IfSome, OnOk, length};
ghost use Rattle.walks.specs.Walks.{IsOnWalk, IsRaised};
ghost use Rattle.lex_simplex.specs.Marks.{AreMarks};
ghost use Rattle.lex_simplex.specs.Rounds.{IsEnd, IsInStage};

use crate::fix::fix_all;
use crate::walk::{End, Round, Walk};
use lpcc_case::Case;
use nogoods::NoGood;
use std::alloc::AllocError;

/// Makes the pivots of the stage in which the walk stands, until the stage or the walk is at its
/// end.
fn run_stage(
    case: &Case,
    tight: &NoGood,
    fixed: &[bool],
    walk: &mut Walk,
    budget: u64,
) -> Result<Option<End>, AllocError>
    requires marks { AreMarks case.now tight.now fixed.now }
    requires on { IsOnWalk case.now tight.now walk.old }
    requires stage { IsInStage case.now walk.old }
    requires few { walk.old.pivots ≤ budget }
    ensures on { OnOk result (IsOnWalk case.now tight.now walk.new) }
    ensures looked { OnOk result (walk.new.looked ≡ walk.old.looked) }
    ensures stage { OnOk result (walk.new.stage ≡ walk.old.stage) }
    ensures raised { IfOk result (λ end. IfNone end ((walk.new.stage < length case.now.constraints) × IsRaised case.now tight.now walk.new.stage walk.new.at)) }
    ensures end { IfOk result (λ end. IfSome end (IsEnd case.now tight.now budget walk.new)) }
{
    loop {
        match walk.round(case, tight, fixed, budget)? {
            Round::Went => {},
            Round::Raised => return Ok(None),
            Round::Ended(end) => return Ok(Some(end)),
        }
    }
}

/// Makes the stages, in their order, to the end of the walk.
fn run_stages(
    case: &Case,
    tight: &NoGood,
    fixed: &[bool],
    walk: &mut Walk,
    budget: u64,
) -> Result<End, AllocError>
    requires marks { AreMarks case.now tight.now fixed.now }
    requires on { IsOnWalk case.now tight.now walk.old }
    requires stage { IsInStage case.now walk.old }
    requires few { walk.old.pivots ≤ budget }
    ensures on { OnOk result (IsOnWalk case.now tight.now walk.new) }
    ensures end { IfOk result (IsEnd case.now tight.now budget walk.new) }
{
    loop {
        if let Some(end) = run_stage(case, tight, fixed, walk, budget)? {
            return Ok(end);
        }
        walk.raise(case, tight);
    }
}

/// Makes the walk from its start to its end.
pub fn run(
    case: &Case,
    tight: &NoGood,
    fixed: &[bool],
    walk: &mut Walk,
    budget: u64,
) -> Result<End, AllocError>
    requires marks { AreMarks case.now tight.now fixed.now }
    requires on { IsOnWalk case.now tight.now walk.old }
    requires looked { walk.old.looked ≡ 0 }
    requires stage { walk.old.stage ≡ 0 }
    requires pivots { walk.old.pivots ≡ 0 }
    ensures on { OnOk result (IsOnWalk case.now tight.now walk.new) }
    ensures end { IfOk result (IsEnd case.now tight.now budget walk.new) }
{
    if let Some(end) = fix_all(case, tight, fixed, walk)? {
        return Ok(end);
    }
    run_stages(case, tight, fixed, walk, budget)
}
