//! What is written of an ending of the solver.
ghost use Rattle.std.specs.Prelude.{◌≡◌, ◌≤◌, ◌^◌, ◌++◌, codes, IfOk, length, string_bytes, take, unsigned_abs};
ghost use Rattle.cert_text.specs.Certs.{IsPoint};
ghost use Rattle.cert_check.specs.Acceptance.{numbers_of};
ghost use Rattle.lpcc_case.specs.Values.{IsValue};
ghost use Rattle.lp_nums.specs.Fractions.{Fraction};
ghost use Rattle.lpcc_case.specs.declared.verdict.Verdict.TheVariants as verdict;
ghost use Rattle.report.specs.Endings.{CanBeWritten, verdict_line};
ghost use Rattle.front_solving.specs.Solving.{IsEndingGiven, IsGiven, IsGivenPoint};
ghost use Rattle.front_solving.specs.Texts.{IsBilevelText, IsEndingText, IsLcpText, first_numbers, optimum_text, point_text, solution_text};

use crate::points::point_text;
use cert_check::point_line::met_point;
use cert_text::{Cert, CertPoint};
use kkt_front::back;
use lp_base::Sequence;
use lp_nums::Frac;
use lpcc_case::{Case, Point, value_of};
use play::Ending;
use report::{Style, text_of};
use std::alloc::{AllocError, Global};

/// The value of an optimum, and the point that has it.
#[derive(Drop)]
struct Optimum {
    value: Frac,
    point: Point,
}

// The value and the point of a certificate.
fn optimum_of(alloc: Global, case: &Case, point: &CertPoint, z: i128) -> Result<Optimum, AllocError>
    requires form { IsPoint point.now }
    requires room { unsigned_abs z ≤ 2 ^ 126 }
    requires given { IsGivenPoint case.now point.now z }
    ensures value { IfOk result (λ best. IsValue case.now z point.now.d best.value) }
    ensures numbers { IfOk result (λ best. best.point.x ≡ numbers_of case.now.columns point.now.terms) }
    ensures denominator { IfOk result (λ best. best.point.d ≡ point.now.d) }
{
    let without_numbers = Point {
        d: point.d,
        x: Sequence::new(alloc),
        z,
    };
    let value = value_of(case, &without_numbers);
    match met_point(alloc, case, point, z)? {
        Some(point) => Ok(Optimum { value, point }),
        None => unreachable!(),
    }
}

// The text of the first `count` numbers of a point.
fn first_numbers_text(alloc: Global, point: &Point, count: u32) -> Result<String, AllocError>
    requires { count ≤ length point.now.x }
    ensures { IfOk result (λ text. string_bytes text ≡ point_text point.now.d (take count point.now.x)) }
{
    let first = back(alloc, point, count)?;
    point_text(alloc, first.d, first.x.as_slice())
}

fn solution_line(alloc: Global, numbers: String) -> Result<String, AllocError>
    ensures { IfOk result (λ text. string_bytes text ≡ codes "* solution " ++ string_bytes numbers ++ codes "\n") }
{
    format!(in alloc; "* solution {numbers}\n")
}

// The end of the line of a verdict, and the line of a point behind it.
fn point_line(alloc: Global, numbers: String) -> Result<String, AllocError>
    ensures { IfOk result (λ text. string_bytes text ≡ codes "\n* point " ++ string_bytes numbers ++ codes "\n") }
{
    format!(in alloc; "\n* point {numbers}\n")
}

fn optimum_lines(alloc: Global, value: Frac, behind: String) -> Result<String, AllocError>
    ensures { IfOk result (λ text. string_bytes text ≡ verdict_line (verdict.Optimal value) ++ string_bytes behind) }
{
    format!(in alloc; "* optimal {value}{behind}")
}

fn solution_text(
    alloc: Global,
    case: &Case,
    size: u32,
    point: &CertPoint,
    z: i128,
) -> Result<String, AllocError>
    requires form { IsPoint point.now }
    requires room { unsigned_abs z ≤ 2 ^ 126 }
    requires given { IsGivenPoint case.now point.now z }
    requires size { size ≤ case.now.columns }
    ensures { IfOk result (λ text. (value : Fraction) × IsValue case.now z point.now.d value
        × (string_bytes text ≡ solution_text point.now.d (first_numbers case.now point.now size))) }
{
    let best = optimum_of(alloc, case, point, z)?;
    let numbers = first_numbers_text(alloc, &best.point, size)?;
    solution_line(alloc, numbers)
}

fn optimum_text(
    alloc: Global,
    case: &Case,
    variables: u32,
    point: &CertPoint,
    z: i128,
) -> Result<String, AllocError>
    requires form { IsPoint point.now }
    requires room { unsigned_abs z ≤ 2 ^ 126 }
    requires given { IsGivenPoint case.now point.now z }
    requires variables { variables ≤ case.now.columns }
    ensures { IfOk result (λ text. (value : Fraction) × IsValue case.now z point.now.d value
        × (string_bytes text ≡ optimum_text value point.now.d (first_numbers case.now point.now variables))) }
{
    let best = optimum_of(alloc, case, point, z)?;
    let numbers = first_numbers_text(alloc, &best.point, variables)?;
    let behind = point_line(alloc, numbers)?;
    optimum_lines(alloc, best.value, behind)
}

fn lcp_verdict_text(
    alloc: Global,
    case: &Case,
    size: u32,
    cert: &Cert,
) -> Result<String, AllocError>
    requires given { IsGiven case.now cert.now }
    requires size { size ≤ case.now.columns }
    ensures { IfOk result (λ text. IsLcpText size case.now cert.now (string_bytes text)) }
{
    match cert {
        Cert::Optimal { point, z, .. } => solution_text(alloc, case, size, point, *z),
        Cert::Infeasible { .. } => String::from_str(alloc, "* no solution\n"),
        Cert::Unbounded { .. } => String::from_str(alloc, "* unbounded\n"),
    }
}

fn bilevel_verdict_text(
    alloc: Global,
    case: &Case,
    variables: u32,
    cert: &Cert,
) -> Result<String, AllocError>
    requires given { IsGiven case.now cert.now }
    requires variables { variables ≤ case.now.columns }
    ensures { IfOk result (λ text. IsBilevelText variables case.now cert.now (string_bytes text)) }
{
    match cert {
        Cert::Optimal { point, z, .. } => optimum_text(alloc, case, variables, point, *z),
        Cert::Infeasible { .. } => String::from_str(alloc, "* infeasible\n"),
        Cert::Unbounded { .. } => String::from_str(alloc, "* unbounded\n"),
    }
}

/// What is written of an ending of a run over the case of a complementarity problem of this size.
pub fn lcp_text(
    alloc: Global,
    case: &Case,
    size: u32,
    ending: &Ending,
) -> Result<Vec<u8>, AllocError>
    requires given { IsEndingGiven case.now ending.now }
    requires form { CanBeWritten ending.now }
    requires size { size ≤ case.now.columns }
    ensures { IfOk result (λ text. IsEndingText (IsLcpText size case.now) case.now ending.now text.items) }
{
    match ending {
        Ending::Verdict { cert, .. } => {
            Ok(lcp_verdict_text(alloc, case, size, cert)?.into_bytes())
        }
        _ => text_of(alloc, case, ending, Style::Brief),
    }
}

/// What is written of an ending of a run over the case of a bilevel problem with so many variables.
pub fn bilevel_text(
    alloc: Global,
    case: &Case,
    variables: u32,
    ending: &Ending,
) -> Result<Vec<u8>, AllocError>
    requires given { IsEndingGiven case.now ending.now }
    requires form { CanBeWritten ending.now }
    requires variables { variables ≤ case.now.columns }
    ensures { IfOk result (λ text. IsEndingText (IsBilevelText variables case.now) case.now ending.now text.items) }
{
    match ending {
        Ending::Verdict { cert, .. } => {
            Ok(bilevel_verdict_text(alloc, case, variables, cert)?.into_bytes())
        }
        _ => text_of(alloc, case, ending, Style::Brief),
    }
}
