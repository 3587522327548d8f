//! Cuts against a piece.
ghost use Rattle.std.specs.Prelude.{◌≡◌, ◌↔◌, ◌≤ℤ◌, ◌*ℤ◌, pos, IfSome, IfNone, IsTrue, All, Contains};
ghost use Rattle.std.specs.Option.{option_copied};
ghost use Rattle.cuts.specs.Cuts.{Passes, no_good_of};
ghost use Rattle.reasons.specs.Reasons.{IsActiveAgainst, IsLimit};
ghost use Rattle.own_order.specs.Searching.{IsAgainst};

use cuts::Cut;
use lp_nums::compare;
use lpcc_case::{Case, Point};
use nogoods::{NoGood, Piece, bars};
use std::cmp::Ordering;

/// The no-good of a cut.
pub fn no_good(cut: &Cut) -> &NoGood
    ensures { result.now ≡ no_good_of cut.now }
{
    match cut {
        Cut::Ray { ng, .. } | Cut::Point { ng, .. } => ng,
    }
}

/// Whether the bound `v / e` is at least the cost of the limit.
fn is_bound(v: i128, e: i64, limit: &Point) -> bool
    requires first { pos 1 ≤ℤ e }
    requires second { pos 1 ≤ℤ limit.now.d }
    ensures { IsTrue result ↔ ((e *ℤ limit.now.z) ≤ℤ (v *ℤ limit.now.d)) }
{
    match compare(v, e, limit.z, limit.d) {
        Ordering::Less => false,
        Ordering::Equal | Ordering::Greater => true,
    }
}

/// Whether the cut is active against the limit.
pub fn is_active(case: &Case, cut: &Cut, limit: Option<&Point>) -> bool
    requires limit { IsLimit case.now (option_copied limit) }
    requires passes { Passes case.now cut.now }
    ensures { IsTrue result ↔ IsActiveAgainst cut.now (option_copied limit.entry) }
{
    match (cut, limit) {
        (Cut::Ray { .. }, _) => true,
        (Cut::Point { e, v, .. }, Some(limit)) => is_bound(*v, *e, limit),
        (Cut::Point { .. }, None) => false,
    }
}

/// Whether the cut bars the piece and is active against the limit.
fn is_against(case: &Case, cut: &Cut, piece: &Piece, limit: Option<&Point>) -> bool
    requires limit { IsLimit case.now (option_copied limit) }
    requires passes { Passes case.now cut.now }
    ensures { IsTrue result ↔ IsAgainst piece.now (option_copied limit.entry) cut.now }
{
    bars(no_good(cut), piece) && is_active(case, cut, limit)
}

/// Whether the cut seems active against the limit. Nothing is claimed of it.
pub fn seems_active(cut: &Cut, limit: Option<&Point>) -> bool {
    match (cut, limit) {
        (Cut::Ray { .. }, _) => true,
        (Cut::Point { e, v, .. }, Some(limit)) => {
            *e >= 1 && limit.d >= 1 && compare(*v, *e, limit.z, limit.d) != Ordering::Less
        },
        (Cut::Point { .. }, None) => false,
    }
}

/// The place of a cut of fewest choices that bars the piece and seems active. Nothing is claimed of
/// it.
fn shortest_place(cuts: &[Cut], piece: &Piece, limit: Option<&Point>) -> usize {
    let mut place = cuts.len();
    let mut fewest = usize::MAX;
    for (k, cut) in cuts.iter().enumerate() {
        let choices = no_good(cut).choices().len();
        if choices < fewest && seems_active(cut, limit) && bars(no_good(cut), piece) {
            place = k;
            fewest = choices;
        }
    }
    place
}

/// The first cut that bars the piece and is active against the limit.
fn first_against<'a>(
    case: &Case,
    cuts: &'a [Cut],
    piece: &Piece,
    limit: Option<&Point>,
) -> Option<&'a Cut>
    requires limit { IsLimit case.now (option_copied limit) }
    requires passes { All (Passes case.now) cuts.now }
    ensures against { IfSome (option_copied result) (λ c. Contains cuts.now c × IsAgainst piece.now (option_copied limit.entry) c) }
    ensures none { IfNone (option_copied result) (All (λ c. IsAgainst piece.now (option_copied limit.entry) c → ⊥) cuts.now) }
{
    for cut in cuts {
        if is_against(case, cut, piece, limit) {
            return Some(cut);
        }
    }
    None
}

/// A cut that bars the piece and is active against the limit, of fewest choices. None where none of
/// these does.
pub fn shortest_against<'a>(
    case: &Case,
    cuts: &'a [Cut],
    piece: &Piece,
    limit: Option<&Point>,
) -> Option<&'a Cut>
    requires limit { IsLimit case.now (option_copied limit) }
    requires passes { All (Passes case.now) cuts.now }
    ensures against { IfSome (option_copied result) (λ c. Contains cuts.now c × IsAgainst piece.now (option_copied limit.entry) c) }
    ensures none { IfNone (option_copied result) (All (λ c. IsAgainst piece.now (option_copied limit.entry) c → ⊥) cuts.now) }
{
    let place = shortest_place(cuts, piece, limit);
    if place < cuts.len() && is_against(case, &cuts[place], piece, limit) {
        return Some(&cuts[place]);
    }
    first_against(case, cuts, piece, limit)
}
