//! Whether the parts of an event fit the case and the number of workers.
ghost use Rattle.std.specs.Prelude.{◌<◌, ◌^◌, ◌↔◌, All, IsTrue, length};
ghost use Rattle.lp_base.specs.Numbers.{IsNarrow};
ghost use Rattle.lpcc_case.specs.NarrowPoints.{AreNumbersOf};
ghost use Rattle.lpcc_case.specs.Pieces.{IsPiece};
ghost use Rattle.play.specs.Lawful.{KeptFits, OutcomeFits, PointFits, ReasonFits};

use crate::Outcome;
use cuts::Reason;
use lpcc_case::{Case, Point, Ray, is_of, names_pairs};
use nogoods::{Choice, Piece};

fn are_narrow(numbers: &[i64]) -> bool
    ensures { IsTrue result ↔ All IsNarrow numbers.now }
{
    numbers.iter().all(|number| *number != i64::MIN)
}

/// Whether the ray has a narrow number for each column.
pub(crate) fn ray_fits(case: &Case, ray: &Ray) -> bool
    ensures { IsTrue result ↔ AreNumbersOf case.now ray.now.r }
{
    ray.r.len() == case.columns() as usize && are_narrow(ray.r.as_slice())
}

/// Whether the piece has a side for each pair.
pub(crate) fn is_piece(case: &Case, piece: &Piece) -> bool
    ensures piece { IsTrue result ↔ IsPiece case.now piece.now }
    ensures few { IsTrue result → length piece.now < 2 ^ 32 }
{
    piece.sides().len() == case.pairs().len()
}

/// Whether there is no point, or its numbers are those of one of the case.
pub(crate) fn point_fits(case: &Case, point: &Option<Point>) -> bool
    ensures { IsTrue result ↔ PointFits case.now point.now }
{
    match point {
        None => true,
        Some(point) => is_of(case, point),
    }
}

fn reason_fits(case: &Case, reason: &Reason) -> bool
    ensures { IsTrue result ↔ ReasonFits case.now reason.now }
{
    match reason {
        Reason::Below(point) => is_of(case, point),
        Reason::Unbounded(point, ray) => is_of(case, point) && ray_fits(case, ray),
        Reason::Wide(_) | Reason::Spent(_) => true,
    }
}

fn kept_fits(case: &Case, kept: &(Choice, Reason)) -> bool
    ensures { IsTrue result ↔ KeptFits case.now kept.now }
{
    (kept.0.pair as usize) < case.pairs().len() && reason_fits(case, &kept.1)
}

fn all_kept_fit(case: &Case, kept: &[(Choice, Reason)]) -> bool
    ensures { IsTrue result ↔ All (KeptFits case.now) kept.now }
{
    kept.iter().all(|kept| kept_fits(case, kept))
}

/// Whether the parts of an outcome fit the case and so many workers.
pub(crate) fn outcome_fits(case: &Case, workers: usize, outcome: &Outcome) -> bool
    ensures { IsTrue result ↔ OutcomeFits case.now workers outcome.now }
{
    match outcome {
        Outcome::Cut { cut, kept, best } => {
            names_pairs(case, cut.no_good().choices())
                && all_kept_fit(case, kept.as_slice())
                && point_fits(case, best)
        }
        Outcome::Barred {
            lane,
            cut,
            best,
            ..
        } => {
            (*lane as usize) < workers
                && names_pairs(case, cut.no_good().choices())
                && point_fits(case, best)
        }
        Outcome::Unbounded { point, ray } => is_of(case, point) && ray_fits(case, ray),
        Outcome::Wide(_) | Outcome::Spent(_) => true,
    }
}
