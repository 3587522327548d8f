//! Certificates.
ghost use Rattle.std.specs.Prelude.{◌≡◌, All, IfOk};
ghost use Rattle.lpcc_case.specs.NarrowPoints.{AreNumbersOf, IsPointOf};
ghost use Rattle.lpcc_case.specs.Pieces.{NamesPairs};
ghost use Rattle.cert_text.specs.Certs.{IsLine, KeepsForm};
ghost use Rattle.cert_text.specs.declared.cert.Cert.TheVariants as cert_of;
ghost use Rattle.cert_parts.specs.PointTerms.{cert_point, terms_from};

use crate::points::{cert_point, terms_of};
use cert_text::{Cert, CertLine};
use lp_base::Sequence;
use lpcc_case::{Case, Point, Ray};
use nogoods::NoGood;
use std::alloc::{AllocError, Global};

/// The certificate that a point is optimal, with these lines.
pub fn optimal_cert(
    alloc: Global,
    case: &Case,
    best: &Point,
    lines: Sequence<CertLine>,
) -> Result<Cert, AllocError>
    requires numbers { IsPointOf case.now best.now }
    requires lines { All IsLine lines }
    ensures cert { IfOk result (λ c. c ≡ cert_of.Optimal (cert_point best.now) best.now.z lines) }
    ensures form { IfOk result KeepsForm }
{
    let _pairs = case.pairs();
    let point = cert_point(alloc, case, best)?;
    Ok(Cert::Optimal {
        point,
        z: best.z,
        lines,
    })
}

/// The certificate that the cost falls without end from a point of a piece along a ray.
pub fn unbounded_cert(
    alloc: Global,
    case: &Case,
    piece: NoGood,
    point: &Point,
    ray: &Ray,
) -> Result<Cert, AllocError>
    requires named { NamesPairs case.now piece }
    requires point { IsPointOf case.now point.now }
    requires ray { AreNumbersOf case.now ray.now.r }
    ensures cert { IfOk result (λ c. c ≡ cert_of.Unbounded piece (cert_point point.now) (terms_from 0 ray.now.r)) }
    ensures form { IfOk result KeepsForm }
{
    let _pairs = case.pairs();
    let _choices = piece.choices();
    let point = cert_point(alloc, case, point)?;
    let ray = terms_of(alloc, case, ray.r.as_slice())?;
    Ok(Cert::Unbounded { piece, point, ray })
}
