//! The points and rays of a certificate, given by the columns that are not zero.
ghost use Rattle.std.specs.Prelude.{◌≡◌, ◌↔◌, IfNone, IfOk, IfSome, IsTrue};
ghost use Rattle.lp_base.specs.Sums.{dot};
ghost use Rattle.lpcc_case.specs.NarrowPoints.{AreNumbersOf, IsPointFor};
ghost use Rattle.lpcc_case.specs.Points as points;
ghost use Rattle.cert_text.specs.Certs.{AreTerms, IsPoint};
ghost use Rattle.cert_check.specs.Acceptance.{GivesMet, IsWholePiece, NamesColumns, RayPasses, numbers_of};
ghost use Rattle.cert_check.specs.Results.{IsPointOfLine};

use cert_text::CertPoint;
use lp_base::Sequence;
use lpcc_case::{Case, Point, Ray, is_of, meets, recedes};
use nogoods::NoGood;
use std::alloc::{AllocError, Global};

fn names_columns(case: &Case, terms: &[(u32, i64)]) -> bool
    ensures { IsTrue result ↔ NamesColumns case.now terms.now }
{
    let columns = case.columns();
    terms.iter().all(|term| term.0 < columns)
}

/// The number of each column: the term's, or 0.
fn numbers_of(alloc: Global, case: &Case, terms: &[(u32, i64)]) -> Result<Sequence<i64>, AllocError>
    requires form { AreTerms terms.now }
    requires named { NamesColumns case.now terms.now }
    ensures list { IfOk result (λ numbers. numbers ≡ numbers_of case.now.columns terms.now) }
    ensures narrow { IfOk result (λ numbers. AreNumbersOf case.now numbers) }
{
    let mut numbers = vec![in alloc; 0; case.columns() as usize]?;
    for term in terms {
        numbers[term.0 as usize] = term.1;
    }
    Ok(Sequence::of_vec(numbers))
}

/// The point of the line with this `z`, where the terms name columns and all constraints are met.
pub fn met_point(
    alloc: Global,
    case: &Case,
    line: &CertPoint,
    z: i128,
) -> Result<Option<Point>, AllocError>
    requires { IsPoint line.now }
    ensures found { IfOk result (λ found. IfSome found (IsPointOfLine case.now line.now z)) }
    ensures none { IfOk result (λ found. IfNone found ((p : points.Point case.now.columns) → GivesMet case.now line.now p → ⊥)) }
{
    let terms = line.terms.as_slice();
    if !names_columns(case, terms) {
        return Ok(None);
    }
    let x = numbers_of(alloc, case, terms)?;
    let point = Point { d: line.d, x, z };
    if !meets(case, &point) {
        return Ok(None);
    }
    Ok(Some(point))
}

/// Whether the point's `z` is the sum of the costs times its numbers.
pub fn has_cost(case: &Case, point: &Point) -> bool
    requires { IsPointFor case.now point.now }
    ensures { IsTrue result ↔ (point.now.z ≡ dot case.now.cost point.now.x) }
{
    is_of(case, point)
}

/// Whether there is one choice for each pair.
pub(crate) fn is_whole(case: &Case, piece: &NoGood) -> bool
    ensures { IsTrue result ↔ IsWholePiece case.now piece.now }
{
    let choices = piece.choices();
    if choices.len() != case.pairs().len() {
        return false;
    }
    for (at, choice) in choices.iter().enumerate() {
        if choice.pair as usize != at {
            return false;
        }
    }
    true
}

/// Whether the terms name columns and the ray recedes for the piece.
pub(crate) fn ray_passes(
    alloc: Global,
    case: &Case,
    piece: &NoGood,
    ray: &[(u32, i64)],
) -> Result<bool, AllocError>
    requires form { AreTerms ray.now }
    requires whole { IsWholePiece case.now piece.now }
    ensures { IfOk result (λ passes. IsTrue passes ↔ RayPasses case.now piece.now ray.now) }
{
    if !names_columns(case, ray) {
        return Ok(false);
    }
    let r = numbers_of(alloc, case, ray)?;
    Ok(recedes(case, piece, &Ray { r }))
}
