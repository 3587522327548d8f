//! Testing cuts, many at once.
ghost use Rattle.std.specs.Prelude.{◌≡◌, All, IfOk, IsTrue};
ghost use Rattle.cert_text.specs.Certs.{IsLine};
ghost use Rattle.cert_check.specs.Results.{IsOverPositive};
ghost use Rattle.cert2_text.specs.Certs2.{IsLine2, KeepsForm2};
ghost use Rattle.cert2_text.specs.Wholes.{Said as SaidBefore, lists_of};
ghost use Rattle.cert_check.specs.declared.accept.NoWhy.{NoWhy as Reason};
ghost use Rattle.cert2_check.specs.Acceptance2.{Line2Fails};
ghost use Rattle.cert2_check.specs.Results2.{AreGood, AreTested, AreTestedIn, CutPasses, Shows};
ghost use Rattle.parallel_check.specs.Testing.{AreTested1, CutPasses1, HasOnlyLists, is_cut};

use cert_check::line::point_cut_fault;
use cert_text::CertLine;
use cert2_check::earlier::Earlier;
use cert2_check::line2::{line_fault, whole_ray_fault};
use cert2_text::{Cert2, Cert2Line};
use lpcc_case::Case;
use rayon::prelude::*;
use std::alloc::{AllocError, Global};
use std::thread::Threads;

fn is_cut(line: &Cert2Line) -> bool
    ensures { result ≡ is_cut line.now }
{
    match line {
        Cert2Line::Ray { .. } | Cert2Line::Point { .. } => true,
        Cert2Line::Shared { .. } | Cert2Line::Derived { .. } | Cert2Line::Forget { .. } => false,
    }
}

// Whether the line does not fail over what is said before it, as far as memory lasts.
fn is_faultless(
    alloc: Global,
    case: &Case,
    value: Option<(i128, i64)>,
    earlier: &Earlier,
    line: &Cert2Line,
) -> bool
    requires positive { IsOverPositive value }
    requires good { AreGood earlier.now }
    requires form { IsLine2 line.now }
    ensures { IsTrue result → (said : SaidBefore) → Shows earlier.now said → (why : Reason) → Line2Fails case.now value said line.now why → ⊥ }
{
    match line_fault(alloc, case, value, earlier, line) {
        Ok(None) => true,
        Ok(Some(_)) | Err(_) => false,
    }
}

// Whether the line is a cut that does not fail over these lists.
fn passes(
    alloc: Global,
    case: &Case,
    value: Option<(i128, i64)>,
    lists: &Earlier,
    line: &Cert2Line,
) -> bool
    requires positive { IsOverPositive value }
    requires good { AreGood lists.now }
    requires only { HasOnlyLists lists.now }
    requires form { IsLine2 line.now }
    ensures { IsTrue result → CutPasses case.now value lists.now.lists line.now }
{
    is_cut(line) && is_faultless(alloc, case, value, lists, line)
}

// The lists of the lines.
fn lists_in(alloc: Global, lines: &[Cert2Line]) -> Result<Earlier, AllocError>
    requires { All IsLine2 lines.now }
    ensures { IfOk result (λ lists. (lists.lists ≡ lists_of lines.now) × AreGood lists × HasOnlyLists lists) }
{
    let mut lists = Earlier::new(alloc);
    for line in lines {
        lists.take_list_in(line)?;
    }
    Ok(lists)
}

/// Marks the cuts that pass, tested in as many threads as there are processors.
pub fn test_cuts(
    rt: &(impl Threads + Sync),
    alloc: Global,
    case: &Case,
    value: Option<(i128, i64)>,
    lines: &[Cert2Line],
) -> Result<Vec<bool>, AllocError>
    requires positive { IsOverPositive value }
    requires form { All IsLine2 lines.now }
    ensures { IfOk result (λ tested. AreTested case.now value lines.now tested.items) }
{
    let lists = lists_in(alloc, lines)?;
    let lists = &lists;
    lines
        .par_iter()
        .map(
            |line: &Cert2Line| -> bool
                requires form { IsLine2 line.now }
                requires positive { IsOverPositive value }
                requires good { AreGood lists.now }
                requires only { HasOnlyLists lists.now }
                ensures { IsTrue result → CutPasses case.entry.now value lists.entry.now.lists line.now }
            { passes(alloc, case, value, lists, line) },
        )
        .collect(rt, alloc)
}

/// Marks the cuts of a certificate that pass.
pub fn test_cert(
    rt: &(impl Threads + Sync),
    alloc: Global,
    case: &Case,
    cert: &Cert2,
) -> Result<Vec<bool>, AllocError>
    requires { KeepsForm2 cert.now }
    ensures { IfOk result (λ tested. AreTestedIn case.now cert.now tested.items) }
{
    match cert {
        Cert2::Optimal { point, z, lines } => {
            test_cuts(rt, alloc, case, Some((*z, point.d)), lines.as_slice())
        }
        Cert2::Infeasible { lines } => test_cuts(rt, alloc, case, None, lines.as_slice()),
        Cert2::Unbounded { .. } => Ok(Vec::new(alloc)),
    }
}

// ---- form 1

// Whether the line is a cut that does not fail.
fn passes1(case: &Case, value: Option<(i128, i64)>, line: &CertLine) -> bool
    requires positive { IsOverPositive value }
    requires form { IsLine line.now }
    ensures { IsTrue result → CutPasses1 case.now value line.now }
{
    match line {
        CertLine::Ray { ng, mult } => whole_ray_fault(case, ng, mult.as_slice()).is_none(),
        CertLine::Point { ng, e, mult } => {
            point_cut_fault(case, value, ng, mult.as_slice(), *e).is_none()
        }
        CertLine::Derived { .. } => false,
    }
}

/// Marks the cuts of form 1 that pass, tested in as many threads as there are processors.
pub fn test_cuts1(
    rt: &(impl Threads + Sync),
    alloc: Global,
    case: &Case,
    value: Option<(i128, i64)>,
    lines: &[CertLine],
) -> Result<Vec<bool>, AllocError>
    requires positive { IsOverPositive value }
    requires form { All IsLine lines.now }
    ensures { IfOk result (λ tested. AreTested1 case.now value lines.now tested.items) }
{
    lines
        .par_iter()
        .map(
            |line: &CertLine| -> bool
                requires form { IsLine line.now }
                requires positive { IsOverPositive value }
                ensures { IsTrue result → CutPasses1 case.entry.now value line.now }
            { passes1(case, value, line) },
        )
        .collect(rt, alloc)
}
