//! The direction of a column of a dictionary.
ghost use Rattle.std.specs.Prelude.{◌<◌, ℕ, ℤ, List, length, IfOk, IfSome, IfNone};
ghost use Rattle.lpcc_case.specs.NarrowPoints.{AreNumbersOf};
ghost use Rattle.dict.specs.Equations.{Equation};
ghost use Rattle.dict.specs.Forms.{IsDictionaryAt, IsWideDictionary, with_rows};
ghost use Rattle.walks.specs.Divisors.{AreCoprime};
ghost use Rattle.walks.specs.Duals.{IsPlaced};
ghost use Rattle.walks.specs.Steps.{IsSized};
ghost use Rattle.basic_solutions.specs.Solutions.{IsDirection, IsWide, number_in};

use crate::common::along_fractions;
use crate::reading::readings;
use dict::Dict;
use lp_base::Sequence;
use lpcc_case::{Case, Ray};
use std::alloc::{AllocError, Global};

/// The direction in which the nonbasic form at a column goes up, or down, while the others stay at 0,
/// in lowest terms. None where these have a number that is not narrow, and then the dictionary at
/// these forms is wide.
pub fn ray_of(
    alloc: Global,
    case: &Case,
    dict: &Dict,
    col: u32,
    down: bool,
) -> Result<Option<Ray>, AllocError>
    requires sized { IsSized case.now dict.now }
    requires placed { IsPlaced case.now dict.now }
    requires col { col < length dict.now.nonbasic }
    ensures numbers { IfOk result (λ found. IfSome found (λ ray. AreNumbersOf case.now ray.r)) }
    ensures direction { IfOk result (λ found. IfSome found (λ ray. IsDirection dict.now down col (number_in ray.r))) }
    ensures lowest { IfOk result (λ found. IfSome found (λ ray. AreCoprime ray.r)) }
    ensures none { IfOk result (λ found. IfNone found ((x : ℕ → ℤ) → IsDirection dict.now down col x → IsWide case.now.columns x)) }
    ensures wide { IfOk result (λ found. IfNone found ((rows : List Equation) → IsDictionaryAt case.now (with_rows rows dict.now) → IsWideDictionary (with_rows rows dict.now))) }
{
    let _constraints = case.constraints();
    let values = readings(alloc, case, dict, Some((col, down)))?;
    match along_fractions(alloc, &values)? {
        Some(numbers) => Ok(Some(Ray {
            r: Sequence::of_vec(numbers),
        })),
        None => Ok(None),
    }
}
