//! From a point of the deck to one of the problem.
ghost use Rattle.std.specs.Prelude.{◌≡◌, ◌≤◌, IfOk, length, pos, take};

use lp_base::Sequence;
use lpcc_case::Point;
use std::alloc::{AllocError, Global};

/// The first `count` numbers of a point over the same denominator. Its cost is not taken over.
pub fn back(alloc: Global, point: &Point, count: u32) -> Result<Point, AllocError>
    requires { count ≤ length point.now.x }
    ensures denominator { IfOk result (λ made. made.d ≡ point.now.d) }
    ensures numbers { IfOk result (λ made. made.x ≡ take count point.now.x) }
    ensures cost { IfOk result (λ made. made.z ≡ pos 0) }
{
    let first = &point.x.as_slice()[..count as usize];
    Ok(Point {
        d: point.d,
        x: Sequence::of_vec(Vec::from_slice(alloc, first)?),
        z: 0,
    })
}
