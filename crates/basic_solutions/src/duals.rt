//! The multipliers of a row.
ghost use Rattle.std.specs.Prelude.{◌≡◌, ◌<◌, ◌++◌, ◌∷◌, [], length, IfOk, OnOk};
ghost use Rattle.lp_base.specs.Numbers.{IsNarrow};
ghost use Rattle.dict.specs.Dictionaries.{form_at, row_at};
ghost use Rattle.dict.specs.Exchanges.{turn};
ghost use Rattle.dict.specs.Forms.{nonzero};
ghost use Rattle.walks.specs.Duals.{AreMultipliersOf};
ghost use Rattle.walks.specs.Steps.{IsSized};
ghost use Rattle.walks.specs.Values.{share};
ghost use Rattle.basic_solutions.specs.Tables.{ArePlaces};

use crate::places::share;
use dict::Dict;
use lp_base::Sequence;
use lpcc_case::Case;
use std::alloc::{AllocError, Global};

#[inline(always)]
pub fn turned(z: i64, sign: bool) -> i64
    requires { IsNarrow z }
    ensures value { result ≡ turn sign z }
    ensures narrow { IsNarrow result }
{
    if sign { -z } else { z }
}

/// The multiplier of constraint k: its share in the row, with a sign.
#[inline(always)]
fn multiplier(case: &Case, dict: &Dict, places: &[u32], row: u32, sign: bool, k: u32) -> i64
    requires sized { IsSized case.now dict.now }
    requires places { ArePlaces case.now dict.now places.now }
    requires row { row < length dict.now.rows }
    requires k { k < length case.now.constraints }
    ensures value { result ≡ turn sign (share (row_at dict.now.rows row) dict.now.nonbasic (form_at dict.now.basic row) k) }
    ensures narrow { IsNarrow result }
{
    turned(share(case, dict, places, row, k), sign)
}

#[inline(always)]
fn put_multiplier(out: &mut Vec<(u32, i64)>, k: u32, y: i64) -> Result<(), AllocError>
    ensures { OnOk result (out.new.items ≡ out.old.items ++ nonzero ((k, y) ∷ [])) }
{
    if y != 0 {
        out.push((k, y))?;
    }
    Ok(())
}

/// The shares of a row that are not zero, with a sign, each with the number of its constraint.
pub fn multipliers(
    alloc: Global,
    case: &Case,
    dict: &Dict,
    places: &[u32],
    row: u32,
    sign: bool,
) -> Result<Sequence<(u32, i64)>, AllocError>
    requires sized { IsSized case.now dict.now }
    requires places { ArePlaces case.now dict.now places.now }
    requires row { row < length dict.now.rows }
    ensures { IfOk result (λ mult. AreMultipliersOf case.now sign (row_at dict.now.rows row) dict.now.nonbasic (form_at dict.now.basic row) mult) }
{
    let mut out: Vec<(u32, i64)> = Vec::new(alloc);
    for k in 0..case.constraints().len() {
        let y = multiplier(case, dict, places, row, sign, k as u32);
        put_multiplier(&mut out, k as u32, y)?;
    }
    Ok(Sequence::of_vec(out))
}
