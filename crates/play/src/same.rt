//! Whether two values are equal.
ghost use Rattle.std.specs.Prelude.{◌≡◌, ◌↔◌, IsTrue};
ghost use Rattle.cuts.specs.Cuts.{multipliers_of};
ghost use Rattle.play.specs.Parts.{kind_of};

use cuts::Cut;
use nogoods::{Choice, Side};

/// Whether the sides are equal.
#[tactic(auto, using(crate::proofs::Equal::equals))]
pub(crate) fn same_sides(left: &[Side], right: &[Side]) -> bool
    ensures { IsTrue result ↔ (left.now ≡ right.now) }
{
    let [first, left @ ..] = left else {
        return right.is_empty();
    };
    let [second, right @ ..] = right else {
        return false;
    };
    if *first != *second {
        return false;
    }
    same_sides(left, right)
}

#[tactic(auto, using(crate::proofs::Equal::equals))]
fn same_choices(left: &[Choice], right: &[Choice]) -> bool
    ensures { IsTrue result ↔ (left.now ≡ right.now) }
{
    let [first, left @ ..] = left else {
        return right.is_empty();
    };
    let [second, right @ ..] = right else {
        return false;
    };
    if *first != *second {
        return false;
    }
    same_choices(left, right)
}

#[tactic(auto, using(crate::proofs::Equal::equals))]
fn same_terms(left: &[(u32, i64)], right: &[(u32, i64)]) -> bool
    ensures { IsTrue result ↔ (left.now ≡ right.now) }
{
    let [first, left @ ..] = left else {
        return right.is_empty();
    };
    let [second, right @ ..] = right else {
        return false;
    };
    if first.0 != second.0 {
        return false;
    }
    if first.1 != second.1 {
        return false;
    }
    same_terms(left, right)
}

/// The multipliers of a cut.
fn multipliers(cut: &Cut) -> &[(u32, i64)]
    ensures { result.now ≡ multipliers_of cut.now }
{
    match cut {
        Cut::Ray { mult, .. } | Cut::Point { mult, .. } => mult.as_slice(),
    }
}

/// Whether both are ray cuts, or point cuts with one factor and one bound.
fn same_kind(left: &Cut, right: &Cut) -> bool
    ensures { IsTrue result ↔ (kind_of left.now ≡ kind_of right.now) }
{
    match (left, right) {
        (Cut::Ray { .. }, Cut::Ray { .. }) => true,
        (
            Cut::Point { e, v, .. },
            Cut::Point {
                e: factor,
                v: bound,
                ..
            },
        ) => {
            if *e != *factor {
                return false;
            }
            *v == *bound
        }
        _ => false,
    }
}

/// Whether the cuts are equal.
#[tactic(auto, using(crate::proofs::Equal::cuts))]
pub(crate) fn same_cut(left: &Cut, right: &Cut) -> bool
    ensures { IsTrue result ↔ (left.now ≡ right.now) }
{
    if !same_choices(left.no_good().choices(), right.no_good().choices()) {
        return false;
    }
    if !same_terms(multipliers(left), multipliers(right)) {
        return false;
    }
    same_kind(left, right)
}
