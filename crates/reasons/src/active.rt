//! Whether a cut is active against a limit.
ghost use Rattle.std.specs.Prelude.{◌↔◌, ◌≤ℤ◌, ◌*ℤ◌, pos, IsTrue};
ghost use Rattle.std.specs.Option.{option_copied};
ghost use Rattle.cuts.specs.Cuts.{Passes};
ghost use Rattle.reasons.specs.Reasons.{IsActiveAgainst, IsLimit};

use cuts::Cut;
use lp_nums::compare;
use lpcc_case::{Case, Point};
use std::cmp::Ordering;

/// Whether the bound `v / e` is at least the cost of the limit, exact. It takes no memory.
pub fn is_bound_for(limit: &Point, v: i128, e: i64) -> bool
    requires factor { pos 1 ≤ℤ e }
    requires denominator { pos 1 ≤ℤ limit.now.d }
    ensures { IsTrue result ↔ ((e *ℤ limit.now.z) ≤ℤ (v *ℤ limit.now.d)) }
{
    match compare(v, e, limit.z, limit.d) {
        Ordering::Less => false,
        Ordering::Equal | Ordering::Greater => true,
    }
}

/// Whether a cut of the case that passes is active against the limit: a ray cut always, a point cut
/// where its bound is at least the cost of the limit. It takes no memory.
pub fn is_active(case: &Case, cut: &Cut, limit: Option<&Point>) -> bool
    requires limit { IsLimit case.now (option_copied limit) }
    requires passes { Passes case.now cut.now }
    ensures { IsTrue result ↔ IsActiveAgainst cut.now (option_copied limit.entry) }
{
    match (cut, limit) {
        (Cut::Ray { .. }, _) => true,
        (Cut::Point { e, v, .. }, Some(limit)) => is_bound_for(limit, *v, *e),
        (Cut::Point { .. }, None) => false,
    }
}
