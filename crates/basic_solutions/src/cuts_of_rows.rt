//! The cuts that show the ends of walks.
ghost use Rattle.std.specs.Prelude.{◌≡◌, ◌≢◌, ◌<◌, ◌*ℤ◌, ◌<ℤ◌, pos, true, length, IfOk};
ghost use Rattle.lpcc_case.specs.Pieces.{NamesPairs};
ghost use Rattle.dict.specs.Dictionaries.{form_at, row_at};
ghost use Rattle.dict.specs.Exchanges.{turn};
ghost use Rattle.walks.specs.Duals.{IsPlaced, NoneFree, NoneHelps};
ghost use Rattle.walks.specs.Steps.{IsSized, IsStageRow, is_last};
ghost use Rattle.walks.specs.Values.{is_fixed};
ghost use Rattle.basic_solutions.specs.RowCuts.{IsCutOfRow, IsPointCutOf, IsRayCutOf};

use crate::blame::blamed_of;
use crate::duals::multipliers;
use crate::places::places_of;
use cuts::Cut;
use dict::Dict;
use lp_base::Sequence;
use lpcc_case::{Case, Form, Point};
use nogoods::NoGood;
use std::alloc::{AllocError, Global};

/// The multipliers of a row, with a sign, and the choices that they need.
fn cut_of_row(
    alloc: Global,
    case: &Case,
    tight: &NoGood,
    dict: &Dict,
    row: u32,
    sign: bool,
) -> Result<(NoGood, Sequence<(u32, i64)>), AllocError>
    requires named { NamesPairs case.now tight.now }
    requires sized { IsSized case.now dict.now }
    requires row { row < length dict.now.rows }
    ensures { IfOk result (λ made. IsCutOfRow case.now tight.now dict.now row sign made.0 made.1) }
{
    let places = places_of(alloc, case, dict)?;
    let mult = multipliers(alloc, case, dict, &places, row, sign)?;
    let ng = blamed_of(alloc, case, mult.as_slice(), tight)?;
    Ok((ng, mult))
}

/// The sign with which the constant of a row is below 0.
#[inline(always)]
fn falling_sign(dict: &Dict, row: u32) -> bool
    requires row { row < length dict.now.rows }
    requires some { (row_at dict.now.rows row).constant ≢ pos 0 }
    ensures { turn result (row_at dict.now.rows row).constant <ℤ pos 0 }
{
    dict.constant(row) > 0
}

/// Where no form can enter for the constraint of a stage, which is below 0: the ray cut of its row.
pub fn stuck_stage_cut(
    alloc: Global,
    case: &Case,
    tight: &NoGood,
    dict: &Dict,
    stage: u32,
    row: u32,
) -> Result<Cut, AllocError>
    requires named { NamesPairs case.now tight.now }
    requires sized { IsSized case.now dict.now }
    requires placed { IsPlaced case.now dict.now }
    requires stage { stage < length case.now.constraints }
    requires row { IsStageRow case.now tight.now stage dict.now row }
    requires stuck { NoneHelps case.now tight.now (is_last case.now stage) dict.now row }
    ensures { IfOk result (IsRayCutOf case.now tight.now) }
{
    let _forms = dict.nonbasic_forms();
    let (ng, mult) = cut_of_row(alloc, case, tight, dict, row, false)?;
    Ok(Cut::Ray { ng, mult })
}

/// Where constraint k, which is fixed and stands in this row, cannot be exchanged and its constant
/// is not 0: the ray cut of the row.
pub fn stuck_exchange_cut(
    alloc: Global,
    case: &Case,
    tight: &NoGood,
    dict: &Dict,
    k: u32,
    row: u32,
) -> Result<Cut, AllocError>
    requires named { NamesPairs case.now tight.now }
    requires sized { IsSized case.now dict.now }
    requires placed { IsPlaced case.now dict.now }
    requires constraint { k < length case.now.constraints }
    requires fixed { is_fixed case.now tight.now k ≡ true }
    requires row { row < length dict.now.rows }
    requires form { form_at dict.now.basic row ≡ Form.Con k }
    requires stuck { NoneFree case.now tight.now dict.now row }
    requires constant { (row_at dict.now.rows row).constant ≢ pos 0 }
    ensures { IfOk result (IsRayCutOf case.now tight.now) }
{
    let _forms = dict.nonbasic_forms();
    let sign = falling_sign(dict, row);
    let (ng, mult) = cut_of_row(alloc, case, tight, dict, row, sign)?;
    Ok(Cut::Ray { ng, mult })
}

/// Where no form can enter for the cost: the point cut of its row. Its bound is the value of the
/// point at which all nonbasic forms are 0.
pub fn lowest_cost_cut(
    alloc: Global,
    case: &Case,
    tight: &NoGood,
    dict: &Dict,
    point: &Point,
) -> Result<Cut, AllocError>
    requires named { NamesPairs case.now tight.now }
    requires sized { IsSized case.now dict.now }
    requires placed { IsPlaced case.now dict.now }
    requires stuck { NoneHelps case.now tight.now true dict.now (length case.now.constraints) }
    requires value { ((row_at dict.now.rows (length case.now.constraints)).den *ℤ point.now.z) ≡ ((row_at dict.now.rows (length case.now.constraints)).constant *ℤ point.now.d) }
    ensures { IfOk result (IsPointCutOf case.now tight.now point.now) }
{
    let _forms = dict.nonbasic_forms();
    let row = case.constraints().len() as u32;
    let (ng, mult) = cut_of_row(alloc, case, tight, dict, row, true)?;
    Ok(Cut::Point {
        ng,
        mult,
        e: dict.denominator(row),
        v: i128::from(dict.constant(row)),
    })
}
