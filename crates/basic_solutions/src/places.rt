//! Where the constraints stand among the nonbasic forms, and what a row has of each.
ghost use Rattle.std.specs.Prelude.{◌≡◌, ◌<◌, ◌↔◌, length, IsTrue, IfOk};
ghost use Rattle.lp_base.specs.Numbers.{IsNarrow};
ghost use Rattle.lpcc_case.specs.declared.form.Form.TheVariants as form;
ghost use Rattle.dict.specs.Dictionaries.{form_at, row_at};
ghost use Rattle.walks.specs.Steps.{IsSized};
ghost use Rattle.walks.specs.Values.{share};
ghost use Rattle.basic_solutions.specs.Tables.{ArePlaces};
ghost use Rattle.basic_solutions.specs.Writes.{with_place};

use dict::Dict;
use lpcc_case::{Case, Form};
use std::alloc::{AllocError, Global};

/// Writes the place of a form that is a constraint.
#[inline(always)]
fn put_place(places: &mut [u32], form: Form, place: u32)
    ensures { places.new ≡ with_place places.old form place }
{
    if let Form::Con(k) = form {
        if (k as usize) < places.len() {
            places[k as usize] = place;
        }
    }
}

/// For each constraint its place among the nonbasic forms of a dictionary, or their number where it
/// is none of them.
pub fn places_of(alloc: Global, case: &Case, dict: &Dict) -> Result<Vec<u32>, AllocError>
    ensures { IfOk result (λ places. ArePlaces case.now dict.now places.items) }
{
    let mut places = vec![in alloc; dict.columns(); case.constraints().len()]?;
    for j in 0..dict.columns() {
        put_place(&mut places, dict.nonbasic(j), j);
    }
    Ok(places)
}

/// Whether constraint k stands in the row.
fn stands_in(dict: &Dict, row: u32, k: u32) -> bool
    requires { row < length dict.now.rows }
    ensures { IsTrue result ↔ (form_at dict.now.basic row ≡ form.Con k) }
{
    match dict.basic(row) {
        Form::Con(l) => l == k,
        _ => false,
    }
}

/// What the row has of constraint k, over the row's denominator: the denominator where the row is
/// its own, and otherwise its entry with the sign changed.
pub fn share(case: &Case, dict: &Dict, places: &[u32], row: u32, k: u32) -> i64
    requires sized { IsSized case.now dict.now }
    requires places { ArePlaces case.now dict.now places.now }
    requires row { row < length dict.now.rows }
    requires k { k < length case.now.constraints }
    ensures value { result ≡ share (row_at dict.now.rows row) dict.now.nonbasic (form_at dict.now.basic row) k }
    ensures narrow { IsNarrow result }
{
    if stands_in(dict, row, k) {
        return dict.denominator(row);
    }
    let place = places[k as usize];
    if place < dict.columns() {
        return -dict.entry(row, place);
    }
    0
}
