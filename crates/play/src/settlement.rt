//! What settles a piece.
ghost use Rattle.std.specs.Prelude.{◌≡◌, ◌↔◌, ◌≤ℤ◌, IfOk, IfSome, IsTrue, pos};
ghost use Rattle.lpcc_case.specs.Pieces.{IsPiece};
ghost use Rattle.cuts.specs.Cuts.{Passes};
ghost use Rattle.reasons.specs.Reasons.{IsActiveAgainst};
ghost use Rattle.play.specs.Points.{IsBest, IsDirection, choices_of, direction};
ghost use Rattle.play.specs.Lawful.{MayCut, MaySettle};

use crate::fits::{is_piece, ray_fits};
use crate::{Outcome, Ticket, choices_of, is_candidate};
use cuts::{Cut, check_cut};
use lpcc_case::{Case, Point, Ray, is_of, is_tight_at, meets, recedes};
use nogoods::{NoGood, Piece, bars};
use reasons::is_bound_for;
use std::alloc::{AllocError, Global};

/// Whether the cut passes its test.
#[tactic(auto, using(crate::proofs::StateLaws::judged_exactly))]
pub(crate) fn passes(case: &Case, cut: &Cut) -> bool
    ensures { IsTrue result ↔ Passes case.now cut.now }
{
    check_cut(case, cut).is_ok()
}

/// Whether there is no point, or it is feasible.
pub(crate) fn is_best(case: &Case, best: &Option<Point>) -> bool
    ensures { IsTrue result ↔ IsBest case.now best.now }
{
    match best {
        None => true,
        Some(point) => is_candidate(case, point),
    }
}

/// Whether a cut that passes is active against the best point.
pub(crate) fn is_active(case: &Case, cut: &Cut, best: &Option<Point>) -> bool
    requires passes { Passes case.now cut.now }
    requires positive { IfSome best.now (λ q. pos 1 ≤ℤ q.d) }
    ensures { IsTrue result ↔ IsActiveAgainst cut.now best.now }
{
    match (cut, best) {
        (Cut::Ray { .. }, _) => true,
        (Cut::Point { .. }, None) => false,
        (Cut::Point { e, v, .. }, Some(best)) => is_bound_for(best, *v, *e),
    }
}

/// Whether the cut settles the piece: it passes its test and bars the piece, and is active against
/// the best point, which is feasible.
fn may_cut(case: &Case, piece: &Piece, cut: &Cut, best: &Option<Point>) -> bool
    ensures { IsTrue result ↔ MayCut case.now piece.now cut.now best.now }
{
    if !passes(case, cut) {
        return false;
    }
    if !bars(cut.no_good(), piece) {
        return false;
    }
    if !is_best(case, best) {
        return false;
    }
    is_active(case, cut, best)
}

/// Whether the point lies in the piece of these choices, and the ray recedes for it.
#[tactic(auto, using(crate::proofs::DirectionLaws::directions))]
fn is_directed(case: &Case, piece: &Piece, tight: &NoGood, point: &Point, ray: &Ray) -> bool
    requires tight { tight.now ≡ choices_of piece.now }
    requires piece { IsPiece case.now piece.now }
    ensures { IsTrue result ↔ IsDirection case.now (direction piece.now point.now ray.now) }
{
    if !is_of(case, point) {
        return false;
    }
    if !ray_fits(case, ray) {
        return false;
    }
    if !meets(case, point) {
        return false;
    }
    if !is_tight_at(case, tight, point) {
        return false;
    }
    recedes(case, tight, ray)
}

/// Whether the point lies in the piece, and the ray recedes for it.
#[tactic(auto, using(crate::proofs::DirectionLaws::directions))]
fn is_direction(
    alloc: Global,
    case: &Case,
    piece: &Piece,
    point: &Point,
    ray: &Ray,
) -> Result<bool, AllocError>
    ensures { IfOk result (λ is. IsTrue is ↔ IsDirection case.now (direction piece.now point.now ray.now)) }
{
    if !is_piece(case, piece) {
        return Ok(false);
    }
    let tight = choices_of(alloc, piece)?;
    Ok(is_directed(case, piece, &tight, point, ray))
}

/// Whether the outcome settles the piece of the ticket.
pub(crate) fn may_settle(
    alloc: Global,
    case: &Case,
    ticket: &Ticket,
    outcome: &Outcome,
) -> Result<bool, AllocError>
    ensures { IfOk result (λ may. IsTrue may ↔ MaySettle case.now ticket.now outcome.now) }
{
    match outcome {
        Outcome::Cut { cut, best, .. } => Ok(may_cut(case, &ticket.piece, cut, best)),
        Outcome::Barred { cut, best, .. } => Ok(may_cut(case, &ticket.piece, cut, best)),
        Outcome::Unbounded { point, ray } => is_direction(alloc, case, &ticket.piece, point, ray),
        Outcome::Wide(_) | Outcome::Spent(_) => Ok(true),
    }
}
