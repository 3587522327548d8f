//! Which cuts outlast an edit.
ghost use Rattle.std.specs.Prelude.{◌≡◌, ◌++◌, ℤ, IfOk, OnOk};
ghost use Rattle.std.specs.Option.{option_to_list};
ghost use Rattle.cuts.specs.declared.cut.Cut.TheVariants as cut_of;
ghost use Rattle.case_edits.specs.Kept.{AreKept, Becomes};

use cuts::{Cut, check_ray, point_bound};
use lp_base::Sequence;
use lpcc_case::Case;
use nogoods::NoGood;
use std::alloc::{AllocError, Global};

/// An equal ray cut, where it passes.
fn kept_ray(
    alloc: Global,
    case: &Case,
    ng: &NoGood,
    mult: &Sequence<(u32, i64)>,
) -> Result<Option<Cut>, AllocError>
    ensures { IfOk result (Becomes case.now (cut_of.Ray ng.now mult.now)) }
{
    let Ok(()) = check_ray(case, ng, mult.as_slice()) else {
        return Ok(None);
    };
    Ok(Some(Cut::Ray {
        ng: ng.copy(alloc)?,
        mult: mult.copy(alloc)?,
    }))
}

/// The point cut with its value made anew, where it passes so.
fn kept_point(
    alloc: Global,
    case: &Case,
    ng: &NoGood,
    mult: &Sequence<(u32, i64)>,
    e: &i64,
) -> Result<Option<Cut>, AllocError>
    ensures { (v : ℤ) → IfOk result (Becomes case.now (cut_of.Point ng.now mult.now e.now v)) }
{
    let Ok(v) = point_bound(case, ng, mult.as_slice(), *e) else {
        return Ok(None);
    };
    Ok(Some(Cut::Point {
        ng: ng.copy(alloc)?,
        mult: mult.copy(alloc)?,
        e: *e,
        v,
    }))
}

/// What becomes of a cut.
fn kept_cut(alloc: Global, case: &Case, cut: &Cut) -> Result<Option<Cut>, AllocError>
    ensures { IfOk result (Becomes case.now cut.now) }
{
    match cut {
        Cut::Ray { ng, mult } => kept_ray(alloc, case, ng, mult),
        Cut::Point { ng, mult, e, .. } => kept_point(alloc, case, ng, mult, e),
    }
}

/// Adds the cut, if there is one.
fn push_kept(made: &mut Vec<Cut>, kept: Option<Cut>) -> Result<(), AllocError>
    ensures { OnOk result (made.new.items ≡ made.old.items ++ option_to_list kept) }
{
    if let Some(cut) = kept {
        made.push(cut)?;
    }
    Ok(())
}

/// The cuts that pass the test of the case, in their order, each point cut with its value made
/// anew.
///
/// # Errors
///
/// Want of memory alone.
pub fn kept_cuts(alloc: Global, case: &Case, cuts: &[Cut]) -> Result<Vec<Cut>, AllocError>
    ensures { IfOk result (λ made. AreKept case.now cuts.now made.items) }
{
    let mut made = Vec::new(alloc);
    for cut in cuts {
        let kept = kept_cut(alloc, case, cut)?;
        push_kept(&mut made, kept)?;
    }
    Ok(made)
}
