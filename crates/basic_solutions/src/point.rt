//! The basic point of a dictionary.
ghost use Rattle.std.specs.Prelude.{◌∷◌, ◌<◌, ◌<ℤ◌, ℕ, ℤ, pos, List, IfOk, IfSome, IfNone};
ghost use Rattle.lpcc_case.specs.NarrowPoints.{IsPointOf};
ghost use Rattle.dict.specs.Equations.{Equation};
ghost use Rattle.dict.specs.Forms.{IsDictionaryAt, IsWideDictionary, with_rows};
ghost use Rattle.walks.specs.Divisors.{AreCoprime};
ghost use Rattle.walks.specs.Duals.{IsPlaced};
ghost use Rattle.walks.specs.Steps.{IsSized};
ghost use Rattle.basic_solutions.specs.Solutions.{IsBasicPoint, IsWidePoint, number_in};

use crate::common::over_common_denominator;
use crate::reading::readings;
use dict::Dict;
use lp_base::Sequence;
use lpcc_case::{Case, Point, cost_of};
use std::alloc::{AllocError, Global};

/// The point at which all nonbasic forms are 0, in lowest terms. None where these have a number that
/// is not narrow, and then the dictionary at these forms is wide.
pub fn point_of(alloc: Global, case: &Case, dict: &Dict) -> Result<Option<Point>, AllocError>
    requires sized { IsSized case.now dict.now }
    requires placed { IsPlaced case.now dict.now }
    ensures numbers { IfOk result (λ found. IfSome found (λ p. IsPointOf case.now p)) }
    ensures basic { IfOk result (λ found. IfSome found (λ p. IsBasicPoint dict.now (number_in p.x) p.d)) }
    ensures lowest { IfOk result (λ found. IfSome found (λ p. AreCoprime (p.d ∷ p.x))) }
    ensures none { IfOk result (λ found. IfNone found ((x : ℕ → ℤ) (one : ℤ) → pos 0 <ℤ one → IsBasicPoint dict.now x one → IsWidePoint case.now.columns x one)) }
    ensures wide { IfOk result (λ found. IfNone found ((rows : List Equation) → IsDictionaryAt case.now (with_rows rows dict.now) → IsWideDictionary (with_rows rows dict.now))) }
{
    let values = readings(alloc, case, dict, None)?;
    match over_common_denominator(alloc, &values)? {
        Some((d, x)) => {
            let z = cost_of(case, &x);
            Ok(Some(Point {
                d,
                x: Sequence::of_vec(x),
                z,
            }))
        },
        None => Ok(None),
    }
}
