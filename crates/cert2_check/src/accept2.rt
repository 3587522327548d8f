//! Acceptance of a certificate of either form for a case.
ghost use Rattle.std.specs.Prelude.{◌≤◌, ◌^◌, All, IfErr, IfOk, None, Some, unsigned_abs, ℕ};
ghost use Rattle.lpcc_case.specs.Verdicts.{IsTrueOf};
ghost use Rattle.lpcc_case.specs.declared.verdict.Verdict.{Verdict as Claim};
ghost use Rattle.lp_base.specs.Answers.{Gives, Refuses as IsRefused};
ghost use Rattle.cert_text.specs.Certs.{IsPoint};
ghost use Rattle.cert_check.specs.declared.accept.NoWhy.{NoWhy as Reason};
ghost use Rattle.cert_check.specs.Acceptance.{found_by};
ghost use Rattle.cert_check.specs.Results.{NamesFirst};
ghost use Rattle.cert2_text.specs.declared.cert2.AnyCert.TheVariants as either;
ghost use Rattle.cert2_text.specs.Certs2.{IsLine2, KeepsForm2};
ghost use Rattle.cert2_check.specs.Acceptance2.{AcceptsAny, FrontFails, KeepsAny, RefusesAny, RefusesAnyAs};
ghost use Rattle.cert2_check.specs.Results2.{AreTested, AreTestedIn, FrontPasses};

use crate::lines2::judge_lines;
use cert_check::accept::judge_unbounded;
use cert_check::point_line::{has_cost, met_point};
use cert_check::{CheckFault, NoWhy, check};
use cert_text::CertPoint;
use cert2_text::{AnyCert, Cert2, Cert2Line};
use lp_nums::Frac;
use lpcc_case::{Case, Verdict, is_complementary, value_of};
use std::alloc::Global;

/// Judges the lines of a point and its value.
pub fn judge_front(
    alloc: Global,
    case: &Case,
    line: &CertPoint,
    z: i128,
) -> Result<Frac, CheckFault>
    requires point { IsPoint line.now }
    requires room { unsigned_abs z ≤ 2 ^ 126 }
    ensures passed { IfOk result (FrontPasses case.now line.now z) }
    ensures refused { IfErr result (NamesFirst (FrontFails case.now line.now z)) }
{
    let Some(point) = met_point(alloc, case, line, z)? else {
        return Err(CheckFault::No {
            line: 3,
            why: NoWhy::PointFails,
        });
    };
    if !is_complementary(case, &point) {
        return Err(CheckFault::No {
            line: 3,
            why: NoWhy::NotComplementary,
        });
    }
    if !has_cost(case, &point) {
        return Err(CheckFault::No {
            line: 4,
            why: NoWhy::ValueFails,
        });
    }
    Ok(value_of(case, &point))
}

/// Judges a certificate of an optimum.
fn judge_optimal(
    alloc: Global,
    case: &Case,
    line: &CertPoint,
    z: i128,
    lines: &[Cert2Line],
    tested: &[bool],
) -> Result<Verdict, CheckFault>
    requires point { IsPoint line.now }
    requires room { unsigned_abs z ≤ 2 ^ 126 }
    requires form { All IsLine2 lines.now }
    requires tested { AreTested case.now (Some (z, line.now.d)) lines.now tested.now }
    ensures accepted { IfOk result (AcceptsAny case.now (either.Two (Cert2.Optimal line.now z lines.now))) }
    ensures refused { IfErr result (RefusesAnyAs case.now (either.Two (Cert2.Optimal line.now z lines.now))) }
{
    let value = judge_front(alloc, case, line, z)?;
    judge_lines(alloc, case, Some((z, line.d)), lines, tested, 5)?;
    Ok(Verdict::Optimal(value))
}

/// Judges a certificate that no point is feasible.
fn judge_infeasible(
    alloc: Global,
    case: &Case,
    lines: &[Cert2Line],
    tested: &[bool],
) -> Result<Verdict, CheckFault>
    requires form { All IsLine2 lines.now }
    requires tested { AreTested case.now None lines.now tested.now }
    ensures accepted { IfOk result (AcceptsAny case.now (either.Two (Cert2.Infeasible lines.now))) }
    ensures refused { IfErr result (RefusesAnyAs case.now (either.Two (Cert2.Infeasible lines.now))) }
{
    judge_lines(alloc, case, None, lines, tested, 3)?;
    Ok(Verdict::Infeasible)
}

/// Judges a certificate of form 2, line by line. Cuts that are marked were tested before.
pub fn judge_two(
    alloc: Global,
    case: &Case,
    cert: &Cert2,
    tested: &[bool],
) -> Result<Verdict, CheckFault>
    requires form { KeepsForm2 cert.now }
    requires tested { AreTestedIn case.now cert.now tested.now }
    ensures accepted { IfOk result (AcceptsAny case.now (either.Two cert.now)) }
    ensures refused { IfErr result (RefusesAnyAs case.now (either.Two cert.now)) }
{
    match cert {
        Cert2::Optimal { point, z, lines } => {
            judge_optimal(alloc, case, point, *z, lines.as_slice(), tested)
        }
        Cert2::Infeasible { lines } => judge_infeasible(alloc, case, lines.as_slice(), tested),
        Cert2::Unbounded { piece, point, ray } => {
            judge_unbounded(alloc, case, piece, point, ray.as_slice())
        }
    }
}

/// Judges a certificate, line by line.
fn judge(alloc: Global, case: &Case, cert: &AnyCert) -> Result<Verdict, CheckFault>
    requires { KeepsAny cert.now }
    ensures accepted { IfOk result (AcceptsAny case.now cert.now) }
    ensures refused { IfErr result (RefusesAnyAs case.now cert.now) }
{
    match cert {
        AnyCert::One(cert) => check(alloc, case, cert),
        AnyCert::Two(cert) => judge_two(alloc, case, cert, &[]),
    }
}

/// Accepts the certificate for the case with its verdict, or names the first content line that
/// fails: a matter of these two alone. Each line is judged over what the lines before it say, in time
/// linear in its own length, in the list that it names, in the constraints that it names and in the
/// lines that its hints name.
pub fn check_any(alloc: Global, case: &Case, cert: &AnyCert) -> Result<Verdict, CheckFault>
    requires { KeepsAny cert.now }
    // What is answered is so.
    ensures accepted { IfOk result (AcceptsAny case.now cert.now) }
    ensures refused { IfErr result (RefusesAnyAs case.now cert.now) }
    // What is so is answered, unless memory is short.
    ensures only_accepted { (v : Claim) → AcceptsAny case.now cert.now v → Gives found_by v result }
    ensures only_refused { (line : ℕ) (why : Reason) → RefusesAny case.now cert.now line why → IsRefused found_by (line, why) result }
    // An accepted certificate's verdict is true.
    ensures sound { IfOk result (IsTrueOf case.now) }
{
    // A case keeps its facts: its scale is at least 1.
    let _pairs = case.pairs();
    judge(alloc, case, cert)
}
