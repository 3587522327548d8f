//! Which constraints a point meets, and along which a direction goes.
ghost use Rattle.std.specs.Prelude.{◌<◌, ◌≤◌, ◌↔◌, ◌⊎◌, ◌*ℤ◌, All, IsTrue, length};
ghost use Rattle.lp_base.specs.Numbers.{IsNarrow};
ghost use Rattle.lpcc_case.specs.Cases.{IsConstraint};
ghost use Rattle.lpcc_case.specs.Instance.{chosen_number};
ghost use Rattle.lpcc_case.specs.NarrowPoints.{AreNumbersOf, HoldsWithEquality, IsPointFor, Means};
ghost use Rattle.lpcc_case.specs.Pieces.{NamesPairs};
ghost use Rattle.lpcc_case.specs.Points as points;
ghost use Rattle.lpcc_case.specs.Points.{Relates, MeetsAll, IsTightAt, IsComplementary, Recedes, left_side};

use crate::sums::{cost_of, left_side};
use crate::{Case, Constraint, Kind, MOST_COLUMNS, Point, Ray};
use lp_base::product;
use nogoods::{Choice, NoGood};

/// Whether the left side at these numbers relates to d times the right side.
fn relates(constraint: &Constraint, numbers: &[i64], d: i64) -> bool
    requires form { IsConstraint (length numbers.now) constraint.now }
    requires few { length numbers.now ≤ MOST_COLUMNS }
    requires narrow { All IsNarrow numbers.now }
    requires factor { IsNarrow d }
    ensures { IsTrue result ↔ Relates constraint.now.kind (left_side constraint.now.terms numbers.now) (constraint.now.rhs *ℤ d) }
{
    let left = left_side(constraint, numbers);
    let right = product(constraint.rhs, d);
    match constraint.kind {
        Kind::Ge => left >= right,
        Kind::Eq => left == right,
    }
}

/// Whether the left side of the constraint of this number is d times its right side.
fn is_equal(case: &Case, number: u32, numbers: &[i64], d: i64) -> bool
    requires named { number < length case.now.constraints }
    requires numbers { AreNumbersOf case.now numbers.now }
    requires factor { IsNarrow d }
    ensures { IsTrue result ↔ HoldsWithEquality case.now numbers.now d number }
{
    let constraint = &case.constraints()[number as usize];
    left_side(constraint, numbers) == product(constraint.rhs, d)
}

/// Whether each constraint's left side relates to d times its right side.
fn all_relate(case: &Case, numbers: &[i64], d: i64) -> bool
    requires numbers { AreNumbersOf case.now numbers.now }
    requires factor { IsNarrow d }
    ensures { IsTrue result ↔ All (λ c. Relates c.kind (left_side c.terms numbers.now) (c.rhs *ℤ d)) case.now.constraints }
{
    for constraint in case.constraints() {
        if !relates(constraint, numbers, d) {
            return false;
        }
    }
    true
}

/// Whether the left side of the constraint of each choice is d times its right side.
fn all_equal(case: &Case, choices: &[Choice], numbers: &[i64], d: i64) -> bool
    requires numbers { AreNumbersOf case.now numbers.now }
    requires factor { IsNarrow d }
    requires named { NamesPairs case.now choices.now }
    ensures { IsTrue result ↔ All (λ c. HoldsWithEquality case.now numbers.now d (chosen_number case.now c)) choices.now }
{
    for choice in choices {
        if !is_equal(case, case.chosen_number(*choice), numbers, d) {
            return false;
        }
    }
    true
}

/// Whether the left side of one of two constraints is d times its right side.
fn one_equal(case: &Case, pair: (u32, u32), numbers: &[i64], d: i64) -> bool
    requires first { pair.0 < length case.now.constraints }
    requires second { pair.1 < length case.now.constraints }
    requires numbers { AreNumbersOf case.now numbers.now }
    requires factor { IsNarrow d }
    ensures { IsTrue result ↔ (HoldsWithEquality case.now numbers.now d pair.0 ⊎ HoldsWithEquality case.now numbers.now d pair.1) }
{
    is_equal(case, pair.0, numbers, d) || is_equal(case, pair.1, numbers, d)
}

/// Whether in each pair the left side of one member is d times its right side.
fn one_equal_in_each_pair(case: &Case, numbers: &[i64], d: i64) -> bool
    requires numbers { AreNumbersOf case.now numbers.now }
    requires factor { IsNarrow d }
    ensures { IsTrue result ↔ All (λ pair. HoldsWithEquality case.now numbers.now d pair.0 ⊎ HoldsWithEquality case.now numbers.now d pair.1) case.now.pairs }
{
    for pair in case.pairs() {
        if !one_equal(case, *pair, numbers, d) {
            return false;
        }
    }
    true
}

/// Whether the point meets all constraints. It takes no memory.
pub fn meets(case: &Case, point: &Point) -> bool
    requires { IsPointFor case.now point.now }
    ensures { (p : points.Point case.now.columns) → Means point.now p → IsTrue result ↔ MeetsAll case.now p }
{
    all_relate(case, point.x.as_slice(), point.d)
}

/// Whether in each pair at least one member is tight at the point. It takes no memory.
pub fn is_complementary(case: &Case, point: &Point) -> bool
    requires { IsPointFor case.now point.now }
    ensures { (p : points.Point case.now.columns) → Means point.now p → IsTrue result ↔ IsComplementary case.now p }
{
    one_equal_in_each_pair(case, point.x.as_slice(), point.d)
}

/// Whether the point is tight at the constraint of each choice. It takes no memory.
pub fn is_tight_at(case: &Case, tight: &NoGood, point: &Point) -> bool
    requires fits { IsPointFor case.now point.now }
    requires named { NamesPairs case.now tight.now }
    ensures { (p : points.Point case.now.columns) → Means point.now p → IsTrue result ↔ IsTightAt case.now p tight.now }
{
    all_equal(case, tight.choices(), point.x.as_slice(), point.d)
}

/// Whether points that are tight at the choices can go along the ray without end, their cost
/// falling: no left side falls, that of an equation or of a chosen constraint stays the same, and
/// the cost falls. It takes no memory.
pub fn recedes(case: &Case, tight: &NoGood, ray: &Ray) -> bool
    requires numbers { AreNumbersOf case.now ray.now.r }
    requires named { NamesPairs case.now tight.now }
    ensures { IsTrue result ↔ Recedes case.now tight.now ray.now.r }
{
    let numbers = ray.r.as_slice();
    all_relate(case, numbers, 0)
        && all_equal(case, tight.choices(), numbers, 0)
        && cost_of(case, numbers) < 0
}
