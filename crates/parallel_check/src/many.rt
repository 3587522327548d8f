//! Acceptance of a certificate of either form for a case, its cuts tested in many threads.
ghost use Rattle.std.specs.Prelude.{◌≤◌, ◌^◌, All, IfErr, IfOk, unsigned_abs, ℕ};
ghost use Rattle.lpcc_case.specs.Verdicts.{IsTrueOf};
ghost use Rattle.lpcc_case.specs.declared.verdict.Verdict.{Verdict as Claim};
ghost use Rattle.lp_base.specs.Answers.{Gives, Refuses as IsRefused};
ghost use Rattle.cert_text.specs.Certs.{IsLine, IsPoint, KeepsForm};
ghost use Rattle.cert_check.specs.declared.accept.NoWhy.{NoWhy as Reason};
ghost use Rattle.cert_check.specs.Acceptance.{found_by};
ghost use Rattle.cert2_text.specs.Certs2.{KeepsForm2};
ghost use Rattle.cert2_text.specs.declared.cert2.AnyCert.TheVariants as either;
ghost use Rattle.cert2_check.specs.Acceptance2.{AcceptsAny, KeepsAny, RefusesAny, RefusesAnyAs};

use crate::lines1::judge_lines1;
use crate::testing::{test_cert, test_cuts1};
use cert_check::CheckFault;
use cert_check::accept::judge_unbounded;
use cert_text::{Cert, CertLine, CertPoint};
use cert2_check::accept2::{judge_front, judge_two};
use cert2_text::{AnyCert, Cert2};
use lpcc_case::{Case, Verdict};
use std::alloc::Global;
use std::thread::Threads;

/// Judges a certificate of an optimum in form 1.
fn judge_optimal1(
    rt: &(impl Threads + Sync),
    alloc: Global,
    case: &Case,
    line: &CertPoint,
    z: i128,
    lines: &[CertLine],
) -> Result<Verdict, CheckFault>
    requires point { IsPoint line.now }
    requires room { unsigned_abs z ≤ 2 ^ 126 }
    requires form { All IsLine lines.now }
    ensures accepted { IfOk result (AcceptsAny case.now (either.One (Cert.Optimal line.now z lines.now))) }
    ensures refused { IfErr result (RefusesAnyAs case.now (either.One (Cert.Optimal line.now z lines.now))) }
{
    let value = judge_front(alloc, case, line, z)?;
    let tested = test_cuts1(rt, alloc, case, Some((z, line.d)), lines)?;
    judge_lines1(alloc, case, Some((z, line.d)), lines, tested.as_slice(), 5)?;
    Ok(Verdict::Optimal(value))
}

/// Judges a certificate in form 1 that no point is feasible.
fn judge_infeasible1(
    rt: &(impl Threads + Sync),
    alloc: Global,
    case: &Case,
    lines: &[CertLine],
) -> Result<Verdict, CheckFault>
    requires { All IsLine lines.now }
    ensures accepted { IfOk result (AcceptsAny case.now (either.One (Cert.Infeasible lines.now))) }
    ensures refused { IfErr result (RefusesAnyAs case.now (either.One (Cert.Infeasible lines.now))) }
{
    let tested = test_cuts1(rt, alloc, case, None, lines)?;
    judge_lines1(alloc, case, None, lines, tested.as_slice(), 3)?;
    Ok(Verdict::Infeasible)
}

/// Judges a certificate of form 1.
fn judge_one(
    rt: &(impl Threads + Sync),
    alloc: Global,
    case: &Case,
    cert: &Cert,
) -> Result<Verdict, CheckFault>
    requires { KeepsForm cert.now }
    ensures accepted { IfOk result (AcceptsAny case.now (either.One cert.now)) }
    ensures refused { IfErr result (RefusesAnyAs case.now (either.One cert.now)) }
{
    match cert {
        Cert::Optimal { point, z, lines } => {
            judge_optimal1(rt, alloc, case, point, *z, lines.as_slice())
        }
        Cert::Infeasible { lines } => judge_infeasible1(rt, alloc, case, lines.as_slice()),
        Cert::Unbounded { piece, point, ray } => {
            judge_unbounded(alloc, case, piece, point, ray.as_slice())
        }
    }
}

/// Judges a certificate of form 2.
fn judge_tested(
    rt: &(impl Threads + Sync),
    alloc: Global,
    case: &Case,
    cert: &Cert2,
) -> Result<Verdict, CheckFault>
    requires { KeepsForm2 cert.now }
    ensures accepted { IfOk result (AcceptsAny case.now (either.Two cert.now)) }
    ensures refused { IfErr result (RefusesAnyAs case.now (either.Two cert.now)) }
{
    let tested = test_cert(rt, alloc, case, cert)?;
    judge_two(alloc, case, cert, tested.as_slice())
}

/// Judges a certificate.
fn judge(
    rt: &(impl Threads + Sync),
    alloc: Global,
    case: &Case,
    cert: &AnyCert,
) -> Result<Verdict, CheckFault>
    requires { KeepsAny cert.now }
    ensures accepted { IfOk result (AcceptsAny case.now cert.now) }
    ensures refused { IfErr result (RefusesAnyAs case.now cert.now) }
{
    match cert {
        AnyCert::One(cert) => judge_one(rt, alloc, case, cert),
        AnyCert::Two(cert) => judge_tested(rt, alloc, case, cert),
    }
}

/// Accepts the certificate for the case with its verdict, or names the first content line that
/// fails, as `check_any` does. The cuts are tested first, in as many threads as there are
/// processors; what passed is not tested again when the lines are judged in their order. It takes a
/// byte for each line besides.
pub fn check_many(
    rt: &(impl Threads + Sync),
    alloc: Global,
    case: &Case,
    cert: &AnyCert,
) -> Result<Verdict, CheckFault>
    requires { KeepsAny cert.now }
    // What is answered is so.
    ensures accepted { IfOk result (AcceptsAny case.now cert.now) }
    ensures refused { IfErr result (RefusesAnyAs case.now cert.now) }
    // What is so is answered, unless memory is short.
    ensures only_accepted { (v : Claim) → AcceptsAny case.now cert.now v → Gives found_by v result }
    ensures only_refused { (line : ℕ) (why : Reason) → RefusesAny case.now cert.now line why → IsRefused found_by (line, why) result }
    // An accepted certificate's verdict is true.
    ensures sound { IfOk result (IsTrueOf case.now) }
{
    // A case keeps its facts: its scale is at least 1.
    let _pairs = case.pairs();
    judge(rt, alloc, case, cert)
}
