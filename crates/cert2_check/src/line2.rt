//! The test of one line, over what the lines before it say.
ghost use Rattle.std.specs.Prelude.{◌≡◌, ◌↔◌, ◌≤ℤ◌, ◌++◌, All, IfOk, IsTrue, List, None, Some, [], pos, true};
ghost use Rattle.lp_base.specs.Ascending.{ascends_by, number_of};
ghost use Rattle.derivation.specs.HintRuns.{NamesBelow};
ghost use Rattle.cert_text.specs.declared.cert.CertLine.TheVariants as form1;
ghost use Rattle.cert_check.specs.Acceptance.{NoGoodFails};
ghost use Rattle.cert_check.specs.Results.{Finds, IsOverPositive};
ghost use Rattle.cert2_text.specs.Certs2.{IsLine2};
ghost use Rattle.cert2_text.specs.Wholes.{Said as SaidBefore, Terms, all_terms};
ghost use Rattle.cert2_check.specs.Acceptance2.{CutFails2, HintsPass2, Line2Fails, MayDrop, PointFails2};
ghost use Rattle.cert2_check.specs.Results2.{AreGood, CutPasses, Shows};

use crate::earlier::Earlier;
use crate::merge::{Term, merged};
use cert_check::NoWhy;
use cert_check::line::point_cut_fault;
use cert2_text::Cert2Line;
use cuts::check_ray;
use derivation::closes;
use lp_base::Sequence;
use lpcc_case::{Case, MOST_PAIRS, names_pairs};
use nogoods::NoGood;
use std::alloc::{AllocError, Global};

/// Why a ray cut fails, given with all its multipliers.
pub fn whole_ray_fault(case: &Case, ng: &NoGood, mult: &[Term]) -> Option<NoWhy>
    ensures { Finds (NoGoodFails case.now None [] (form1.Ray ng.now mult.now)) result }
{
    match check_ray(case, ng, mult) {
        Ok(()) => None,
        Err(_) => Some(NoWhy::CutFails),
    }
}

// Why a ray cut fails, its multipliers being its own and those of the list that it names.
fn ray_fault(
    alloc: Global,
    case: &Case,
    earlier: &Earlier,
    ng: &NoGood,
    list: Option<u64>,
    own: &[Term],
) -> Result<Option<NoWhy>, AllocError>
    requires lists { AreGood earlier.now }
    requires own_ascends { IsTrue (ascends_by number_of own.now) }
    ensures { IfOk result (Finds (λ why. CutFails2 earlier.now.lists list (NoGoodFails case.now None [] (form1.Ray ng.now (all_terms earlier.now.lists list own.now)) why) why)) }
{
    let Some(number) = list else {
        return Ok(whole_ray_fault(case, ng, own));
    };
    let Some(shared) = earlier.list(number) else {
        return Ok(Some(NoWhy::ListFails));
    };
    let all = merged(alloc, shared, own)?;
    Ok(whole_ray_fault(case, ng, all.as_slice()))
}

// Why a point cut fails over a value `z / d` that is claimed, as `ray_fault` says it of a ray cut.
fn point_fault(
    alloc: Global,
    case: &Case,
    value: Option<(i128, i64)>,
    earlier: &Earlier,
    ng: &NoGood,
    e: i64,
    list: Option<u64>,
    own: &[Term],
) -> Result<Option<NoWhy>, AllocError>
    requires positive { IsOverPositive value }
    requires divisor { pos 1 ≤ℤ e }
    requires lists { AreGood earlier.now }
    requires own_ascends { IsTrue (ascends_by number_of own.now) }
    ensures { IfOk result (Finds (λ why. CutFails2 earlier.now.lists list (NoGoodFails case.now value [] (form1.Point ng.now e (all_terms earlier.now.lists list own.now)) why) why)) }
{
    let Some(number) = list else {
        return Ok(point_cut_fault(case, value, ng, own, e));
    };
    let Some(listed) = earlier.list(number) else {
        return Ok(Some(NoWhy::ListFails));
    };
    let all = merged(alloc, listed, own)?;
    Ok(point_cut_fault(case, value, ng, all.as_slice(), e))
}

// Why a point cut fails over a value `z / d` that is claimed or none.
fn point_fault_over(
    alloc: Global,
    case: &Case,
    value: Option<(i128, i64)>,
    earlier: &Earlier,
    ng: &NoGood,
    e: i64,
    list: Option<u64>,
    own: &[Term],
) -> Result<Option<NoWhy>, AllocError>
    requires positive { IsOverPositive value }
    requires divisor { pos 1 ≤ℤ e }
    requires lists { AreGood earlier.now }
    requires own_ascends { IsTrue (ascends_by number_of own.now) }
    ensures { IfOk result (λ found. (said : SaidBefore) → Shows earlier.now said → Finds (PointFails2 case.now value said ng.now e list own.now) found) }
{
    let Some(_) = value else {
        return Ok(Some(NoWhy::WrongKind));
    };
    point_fault(alloc, case, value, earlier, ng, e, list, own)
}

// Whether the choices name pairs, the hint run closes, and no hint is dropped.
fn hints_pass(case: &Case, earlier: &Earlier, ng: &NoGood, hints: &[u64]) -> bool
    requires few_pairs { NamesBelow MOST_PAIRS ng.now }
    requires good { AreGood earlier.now }
    ensures { (said : SaidBefore) → Shows earlier.now said → IsTrue result ↔ HintsPass2 case.now said ng.now hints.now }
{
    names_pairs(case, ng.choices()) && closes(earlier, ng, hints) && earlier.are_kept(hints)
}

// Whether the numbers are those of no-good lines that are not dropped yet.
fn may_drop(earlier: &Earlier, lines: &Sequence<u64>) -> bool
    ensures { (said : SaidBefore) → Shows earlier.now said → IsTrue result ↔ MayDrop said lines.now }
{
    earlier.may_drop(lines.as_slice())
}

/// Why the line fails over what the lines before it say and a value `z / d` that is claimed or none.
pub fn line_fault(
    alloc: Global,
    case: &Case,
    value: Option<(i128, i64)>,
    earlier: &Earlier,
    line: &Cert2Line,
) -> Result<Option<NoWhy>, AllocError>
    requires positive { IsOverPositive value }
    requires good { AreGood earlier.now }
    requires form { IsLine2 line.now }
    ensures { IfOk result (λ found. (said : SaidBefore) → Shows earlier.now said → Finds (Line2Fails case.now value said line.now) found) }
{
    match line {
        Cert2Line::Shared { .. } => Ok(None),
        Cert2Line::Ray { ng, list, mult } => {
            ray_fault(alloc, case, earlier, ng, *list, mult.as_slice())
        }
        Cert2Line::Point { ng, e, list, mult } => point_fault_over(
            alloc,
            case,
            value,
            earlier,
            ng,
            *e,
            *list,
            mult.as_slice(),
        ),
        Cert2Line::Derived { ng, hints } if hints_pass(case, earlier, ng, hints.as_slice()) => {
            Ok(None)
        }
        Cert2Line::Derived { .. } => Ok(Some(NoWhy::HintFails)),
        Cert2Line::Forget { lines } if may_drop(earlier, lines) => Ok(None),
        Cert2Line::Forget { .. } => Ok(Some(NoWhy::DropFails)),
    }
}

/// The same of a line that is known to be a cut which passes over more lists, where it is marked so.
pub fn line_fault_known(
    alloc: Global,
    case: &Case,
    value: Option<(i128, i64)>,
    earlier: &Earlier,
    line: &Cert2Line,
    tested: bool,
) -> Result<Option<NoWhy>, AllocError>
    requires positive { IsOverPositive value }
    requires good { AreGood earlier.now }
    requires form { IsLine2 line.now }
    requires tested { tested ≡ true → (more : List Terms) × CutPasses case.now value (earlier.now.lists ++ more) line.now }
    ensures { IfOk result (λ found. (said : SaidBefore) → Shows earlier.now said → Finds (Line2Fails case.now value said line.now) found) }
{
    if tested && earlier.has_list_of(line) {
        return Ok(None);
    }
    line_fault(alloc, case, value, earlier, line)
}
