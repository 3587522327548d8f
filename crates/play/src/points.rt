//! The best point of a run: which points it may be, and how it falls.
ghost use Rattle.std.specs.Prelude.{◌≡◌, ◌≤ℤ◌, ◌↔◌, IfSome, IsTrue, pos};
ghost use Rattle.play.specs.Points.{IsCandidate, lowered};

use lpcc_case::{Case, Point, is_complementary, is_of, lower, meets};

/// Whether the numbers of a point are those of a feasible point of the case. It takes no memory.
#[tactic(auto, using(crate::proofs::Bests::not_of))]
pub fn is_candidate(case: &Case, point: &Point) -> bool
    ensures { IsTrue result ↔ IsCandidate case.now point.now }
{
    if !is_of(case, point) {
        return false;
    }
    if !meets(case, point) {
        return false;
    }
    is_complementary(case, point)
}

/// The lower point of two, the old one where neither is lower.
pub fn lowered(old: Option<Point>, offer: Option<Point>) -> Option<Point>
    requires old { IfSome old (λ q. pos 1 ≤ℤ q.d) }
    requires offer { IfSome offer (λ q. pos 1 ≤ℤ q.d) }
    ensures { result ≡ lowered old offer }
{
    let Some(offer) = offer else {
        return old;
    };
    let Some(old) = old else {
        return Some(offer);
    };
    if lower(&offer, &old) {
        Some(offer)
    } else {
        Some(old)
    }
}
