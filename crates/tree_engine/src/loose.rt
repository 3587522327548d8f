//! Pairs without a tight member.
ghost use Rattle.std.specs.Prelude.{◌≡◌, ◌<◌, ◌∷◌, ◌↔◌, [], IfNone, IfOk, IfSome, IsTrue, length};
ghost use Rattle.lpcc_case.specs.Instance.{chosen};
ghost use Rattle.lpcc_case.specs.NarrowPoints.{IsPointFor, Means};
ghost use Rattle.lpcc_case.specs.Points as points;
ghost use Rattle.lpcc_case.specs.Points.{IsComplementary, IsTight};
ghost use Rattle.reasons.specs.Reasons.{Has};
ghost use Rattle.tree_engine.specs.Paths.{HasTightSide, IsFirstLoose};

use lpcc_case::{Case, Point, is_tight_at};
use nogoods::{Choice, NoGood, Side};
use std::alloc::{AllocError, Global};

fn single(alloc: Global, choice: Choice) -> Result<NoGood, AllocError>
    ensures { IfOk result (λ made. made ≡ choice ∷ []) }
{
    let Some(made) = NoGood::from_choices(alloc, &[choice])? else {
        unreachable!();
    };
    Ok(made)
}

/// Whether the constraint of a choice is tight at the point.
fn is_tight_by(
    alloc: Global,
    case: &Case,
    point: &Point,
    choice: Choice,
) -> Result<bool, AllocError>
    requires point { IsPointFor case.now point.now }
    requires named { choice.pair < length case.now.pairs }
    ensures { (p : points.Point case.now.columns) → Means point.now p → IfOk result (λ tight. IsTrue tight ↔ IsTight p (chosen case.now choice)) }
{
    let choices = single(alloc, choice)?;
    Ok(is_tight_at(case, &choices, point))
}

/// Whether a member of the pair is tight at the point.
fn has_tight_side(alloc: Global, case: &Case, point: &Point, pair: u32) -> Result<bool, AllocError>
    requires point { IsPointFor case.now point.now }
    requires named { pair < length case.now.pairs }
    ensures { (p : points.Point case.now.columns) → Means point.now p → IfOk result (λ tight. IsTrue tight ↔ HasTightSide case.now p pair) }
{
    let side = Side::A;
    if is_tight_by(alloc, case, point, Choice { pair, side })? {
        return Ok(true);
    }
    let side = Side::B;
    is_tight_by(alloc, case, point, Choice { pair, side })
}

/// The first pair without a tight member at the point. None where each pair has one.
pub fn first_loose(alloc: Global, case: &Case, point: &Point) -> Result<Option<u32>, AllocError>
    requires { IsPointFor case.now point.now }
    ensures loose { IfOk result (λ found. IfSome found (IsFirstLoose case.now point.now)) }
    ensures none { IfOk result (λ found. IfNone found (Has case.now point.now (IsComplementary case.now))) }
{
    for pair in 0..case.pairs().len() {
        if !has_tight_side(alloc, case, point, pair as u32)? {
            return Ok(Some(pair as u32));
        }
    }
    Ok(None)
}
