//! Acceptance of a certificate for a case.
ghost use Rattle.std.specs.Prelude.{◌≡◌, ◌≤◌, ◌^◌, All, IfErr, IfOk, unsigned_abs, ℕ};
ghost use Rattle.lpcc_case.specs.Verdicts.{IsTrueOf};
ghost use Rattle.lpcc_case.specs.declared.verdict.Verdict.{Verdict as Claim};
ghost use Rattle.cert_text.specs.Certs.{AreTerms, IsLine, IsPoint, KeepsForm};
ghost use Rattle.cert_check.specs.declared.accept.NoWhy.{NoWhy as Reason};
ghost use Rattle.lp_base.specs.Answers.{Gives, Refuses as IsRefused};
ghost use Rattle.cert_check.specs.Acceptance.{Accepts, Refuses, RefusesAs, found_by};
ghost use Rattle.cert_check.specs.Names.{name_of};

use crate::lines::judge_lines;
use crate::point_line::{has_cost, is_whole, met_point, ray_passes};
use cert_text::{Cert, CertLine, CertPoint};
use lpcc_case::{Case, Verdict, is_complementary, is_tight_at, value_of};
use nogoods::NoGood;
use std::alloc::{AllocError, Global};
use thiserror::Error;

/// Why a content line fails.
#[derive(Clone, Copy, Debug, PartialEq, Eq)]
pub enum NoWhy {
    /// A term names no column, or the point does not meet a constraint.
    PointFails,
    /// In a pair no member is tight; or a choice is missing, or not tight at the point.
    NotComplementary,
    /// The value is not the cost of the point.
    ValueFails,
    /// The ray does not recede.
    RayFails,
    /// A point cut in a certificate of infeasibility.
    WrongKind,
    /// The test of the cut fails.
    CutFails,
    /// The bound of the point cut is below the point's value.
    BoundLow,
    /// A choice names no pair, or the hint run does not close.
    HintFails,
    /// The last no-good has choices, or there is none.
    NotEmptyAtEnd,
    /// A cut names a list that is not there. Lists are of form 2.
    ListFails,
    /// A line drops what is no earlier no-good line, or is dropped already. Such lines are of form 2.
    DropFails,
}

impl NoWhy {
    /// The name of the reason.
    pub fn name(self) -> &'static str
        ensures { result.now ≡ name_of self }
    {
        match self {
            NoWhy::PointFails => "PointFails",
            NoWhy::NotComplementary => "NotComplementary",
            NoWhy::ValueFails => "ValueFails",
            NoWhy::RayFails => "RayFails",
            NoWhy::WrongKind => "WrongKind",
            NoWhy::CutFails => "CutFails",
            NoWhy::BoundLow => "BoundLow",
            NoWhy::HintFails => "HintFails",
            NoWhy::NotEmptyAtEnd => "NotEmptyAtEnd",
            NoWhy::ListFails => "ListFails",
            NoWhy::DropFails => "DropFails",
        }
    }
}

/// Why a certificate is not accepted.
#[derive(Debug, Drop, Error)]
pub enum CheckFault {
    /// The first content line that fails, counted from 1, and why.
    #[error("line {line}: {why:?}")]
    No { line: u64, why: NoWhy },
    #[error(transparent)]
    NoMemory(AllocError),
}

impl From<AllocError> for CheckFault {
    ghost use Rattle.std.specs.Prelude.{◌≡◌};
    ghost use Rattle.cert_check.specs.declared.accept.CheckFault.TheVariants.{NoMemory};

    ghost from_gives = { λ e f. f ≡ NoMemory e };

    fn from(error: AllocError) -> CheckFault {
        CheckFault::NoMemory(error)
    }
}

/// Judges a certificate of an optimum.
fn judge_optimal(
    alloc: Global,
    case: &Case,
    line: &CertPoint,
    z: i128,
    lines: &[CertLine],
) -> Result<Verdict, CheckFault>
    requires point { IsPoint line.now }
    requires room { unsigned_abs z ≤ 2 ^ 126 }
    requires form { All IsLine lines.now }
    ensures accepted { IfOk result (Accepts case.now (Cert.Optimal line.now z lines.now)) }
    ensures refused { IfErr result (RefusesAs case.now (Cert.Optimal line.now z lines.now)) }
{
    let Some(point) = met_point(alloc, case, line, z)? else {
        return Err(CheckFault::No {
            line: 3,
            why: NoWhy::PointFails,
        });
    };
    if !is_complementary(case, &point) {
        return Err(CheckFault::No {
            line: 3,
            why: NoWhy::NotComplementary,
        });
    }
    if !has_cost(case, &point) {
        return Err(CheckFault::No {
            line: 4,
            why: NoWhy::ValueFails,
        });
    }
    match judge_lines(case, Some((z, line.d)), lines, 5) {
        Ok(()) => Ok(Verdict::Optimal(value_of(case, &point))),
        Err(fault) => Err(fault),
    }
}

/// Judges a certificate that no point is feasible. It takes no memory.
fn judge_infeasible(case: &Case, lines: &[CertLine]) -> Result<Verdict, CheckFault>
    requires { All IsLine lines.now }
    ensures accepted { IfOk result (Accepts case.now (Cert.Infeasible lines.now)) }
    ensures refused { IfErr result (RefusesAs case.now (Cert.Infeasible lines.now)) }
{
    match judge_lines(case, None, lines, 3) {
        Ok(()) => Ok(Verdict::Infeasible),
        Err(fault) => Err(fault),
    }
}

/// Judges a certificate that the cost falls without end.
pub fn judge_unbounded(
    alloc: Global,
    case: &Case,
    piece: &NoGood,
    line: &CertPoint,
    ray: &[(u32, i64)],
) -> Result<Verdict, CheckFault>
    requires point { IsPoint line.now }
    requires terms { AreTerms ray.now }
    ensures accepted { IfOk result (Accepts case.now (Cert.Unbounded piece.now line.now ray.now)) }
    ensures refused { IfErr result (RefusesAs case.now (Cert.Unbounded piece.now line.now ray.now)) }
{
    if !is_whole(case, piece) {
        return Err(CheckFault::No {
            line: 3,
            why: NoWhy::NotComplementary,
        });
    }
    let Some(point) = met_point(alloc, case, line, 0)? else {
        return Err(CheckFault::No {
            line: 4,
            why: NoWhy::PointFails,
        });
    };
    if !is_tight_at(case, piece, &point) {
        return Err(CheckFault::No {
            line: 4,
            why: NoWhy::NotComplementary,
        });
    }
    if !ray_passes(alloc, case, piece, ray)? {
        return Err(CheckFault::No {
            line: 5,
            why: NoWhy::RayFails,
        });
    }
    Ok(Verdict::Unbounded)
}

/// Judges a certificate, line by line.
fn judge(alloc: Global, case: &Case, cert: &Cert) -> Result<Verdict, CheckFault>
    requires { KeepsForm cert.now }
    ensures accepted { IfOk result (Accepts case.now cert.now) }
    ensures refused { IfErr result (RefusesAs case.now cert.now) }
{
    match cert {
        Cert::Optimal { point, z, lines } => {
            judge_optimal(alloc, case, point, *z, lines.as_slice())
        }
        Cert::Infeasible { lines } => judge_infeasible(case, lines.as_slice()),
        Cert::Unbounded { piece, point, ray } => {
            judge_unbounded(alloc, case, piece, point, ray.as_slice())
        }
    }
}

/// Accepts the certificate for the case with its verdict, or names the first content line that
/// fails: a matter of these two alone. Each line is judged over the lines before it, in time
/// linear in its own length, in the constraints that it names and in the lines that its hints
/// name.
pub fn check(alloc: Global, case: &Case, cert: &Cert) -> Result<Verdict, CheckFault>
    requires { KeepsForm cert.now }
    // What is answered is so.
    ensures accepted { IfOk result (Accepts case.now cert.now) }
    ensures refused { IfErr result (RefusesAs case.now cert.now) }
    // What is so is answered, unless memory is short.
    ensures only_accepted { (v : Claim) → Accepts case.now cert.now v → Gives found_by v result }
    ensures only_refused { (line : ℕ) (why : Reason) → Refuses case.now cert.now line why → IsRefused found_by (line, why) result }
    // An accepted certificate's verdict is true.
    ensures sound { IfOk result (IsTrueOf case.now) }
{
    // A case keeps its facts: its scale is at least 1.
    let _pairs = case.pairs();
    judge(alloc, case, cert)
}
