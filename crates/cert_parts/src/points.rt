//! Points and rays by their numbers that are not zero.
ghost use Rattle.std.specs.Prelude.{◌≡◌, ◌<◌, ◌≤◌, ◌+◌, IfOk, OnOk, false, length, pos, slice_index_or, take, true, unsigned_abs};
ghost use Rattle.lpcc_case.specs.NarrowPoints.{AreNumbersOf, IsPointOf};
ghost use Rattle.lpcc_case.specs.Cases.{IsCase};
ghost use Rattle.cert_text.specs.Certs.{AreTerms, IsPoint};
ghost use Rattle.cert_parts.specs.PointTerms.{cert_point, terms_from};

use cert_text::CertPoint;
use lp_base::Sequence;
use lpcc_case::{Case, MOST_COLUMNS, Point};
use std::alloc::{AllocError, Global};

fn number_at(numbers: &[i64], at: usize) -> i64
    requires { at < length numbers.now }
    ensures { result ≡ slice_index_or numbers.now at (pos 0) }
{
    numbers[at]
}

fn is_zero(number: i64) -> bool
    ensures zero { result ≡ true → unsigned_abs number ≡ 0 }
    ensures other { result ≡ false → ¬ (unsigned_abs number ≡ 0) }
{
    number.unsigned_abs() == 0
}

/// Adds the number of one column, if it is not zero.
fn add_term(made: &mut Sequence<(u32, i64)>, numbers: &[i64], at: usize) -> Result<(), AllocError>
    requires few { length numbers.now ≤ MOST_COLUMNS }
    requires within { at < length numbers.now }
    requires made { made.old ≡ terms_from 0 (take at numbers.now) }
    ensures { OnOk result (made.new ≡ terms_from 0 (take (at + 1) numbers.now)) }
{
    let number = number_at(numbers, at);
    if is_zero(number) {
        return Ok(());
    }
    made.push((at as u32, number))?;
    Ok(())
}

fn all_terms(alloc: Global, numbers: &[i64]) -> Result<Sequence<(u32, i64)>, AllocError>
    requires { length numbers.now ≤ MOST_COLUMNS }
    ensures { IfOk result (λ made. made ≡ terms_from 0 numbers.now) }
{
    let mut made = Sequence::new(alloc);
    for at in 0..numbers.len() {
        add_term(&mut made, numbers, at)?;
    }
    Ok(made)
}

/// The numbers that are not zero, each with its place.
pub fn terms_of(
    alloc: Global,
    case: &Case,
    numbers: &[i64],
) -> Result<Sequence<(u32, i64)>, AllocError>
    requires is_case { IsCase case.now }
    requires numbers { AreNumbersOf case.now numbers.now }
    ensures terms { IfOk result (λ made. made ≡ terms_from 0 numbers.now) }
    ensures form { IfOk result AreTerms }
{
    let made = all_terms(alloc, numbers)?;
    Ok(made)
}

/// The point of a certificate.
pub fn cert_point(alloc: Global, case: &Case, point: &Point) -> Result<CertPoint, AllocError>
    requires is_case { IsCase case.now }
    requires numbers { IsPointOf case.now point.now }
    ensures point { IfOk result (λ made. made ≡ cert_point point.now) }
    ensures form { IfOk result IsPoint }
{
    let terms = terms_of(alloc, case, point.x.as_slice())?;
    Ok(CertPoint { d: point.d, terms })
}
