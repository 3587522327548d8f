//! Shrinking of cuts that are known.
use crate::cases::{BOUNDED_DECK, SHARED_DECK, case_in};
use cuts::{Cut, Reason, check_cut};
use lp_base::Sequence;
use lpcc_case::{Case, Point, is_of};
use nogoods::{Choice, NoGood, Side};
use shrink::{KnownPoints, Shrunk, shrink, shrink_with};
use std::alloc::Global;
use std::test::Fail;

const PIVOTS: u64 = 1000;

fn no_good(alloc: Global, choices: &[Choice]) -> Result<NoGood, Fail> {
    let made = NoGood::from_choices(alloc, choices)?;
    Ok(made.ok_or("the choices ascend")?)
}

fn side_a(pair: u32) -> Choice {
    Choice {
        pair,
        side: Side::A,
    }
}

fn column(alloc: Global, numbers: &[i64]) -> Result<Sequence<i64>, Fail> {
    Ok(Sequence::of_vec(Vec::from_slice(alloc, numbers)?))
}

fn multipliers(alloc: Global, list: &[(u32, i64)]) -> Result<Sequence<(u32, i64)>, Fail> {
    Ok(Sequence::of_vec(Vec::from_slice(alloc, list)?))
}

fn choices_of(cut: &Cut) -> &[Choice] {
    match cut {
        Cut::Ray { ng, .. } | Cut::Point { ng, .. } => ng.choices(),
    }
}

/// A ray cut with these choices, shrunk without a limit, where it passes.
fn shrunk_ray(
    alloc: Global,
    case: &Case,
    choices: &[Choice],
    mult: &[(u32, i64)],
    known: &mut KnownPoints,
) -> Result<Option<Shrunk>, Fail> {
    let ng = no_good(alloc, choices)?;
    let mult = multipliers(alloc, mult)?;
    let cut = Cut::Ray { ng, mult };
    if check_cut(case, &cut).is_err() {
        return Ok(None);
    }
    Ok(Some(shrink_with(alloc, case, cut, None, PIVOTS, known)?))
}

#[test]
fn a_choice_of_the_same_constraint_is_dropped(rt: HostRuntime) -> Result<(), Fail> {
    let alloc = rt.alloc();
    let case = case_in(alloc, SHARED_DECK)?;
    let mut known = KnownPoints::new(alloc);
    let both = [side_a(0), side_a(1)];
    let shrunk = shrunk_ray(alloc, &case, &both, &[(0, 1), (1, -1)], &mut known)?.ok_or(
        "it passes",
    )?;
    assert_eq!(rt; choices_of(&shrunk.cut), [side_a(1)].as_slice());
    let [(choice, Reason::Below(point))] = shrunk.kept.as_slice() else {
        assert!(rt; false, "one choice is kept, for a point");
        return Ok(());
    };
    assert_eq!(rt; *choice, side_a(1));
    assert_eq!(rt; point.d, 1);
    assert_eq!(rt; point.x.as_slice(), [1_i64, 0, 0].as_slice());
    Ok(())
}

/// The cut that shows a cost of at least -4 where the first column is zero, shrunk against a limit
/// of this cost, where it passes.
fn shrunk_point(alloc: Global, case: &Case) -> Result<Option<Shrunk>, Fail> {
    let limit = Point {
        d: 1,
        x: column(alloc, &[0, 2])?,
        z: -4,
    };
    let ng = no_good(alloc, &[side_a(0)])?;
    let mult = multipliers(alloc, &[(0, -1), (3, 2)])?;
    let cut = Cut::Point {
        ng,
        mult,
        e: 1,
        v: -4,
    };
    if check_cut(case, &cut).is_err() || !is_of(case, &limit) {
        return Ok(None);
    }
    Ok(Some(shrink(alloc, case, cut, Some(&limit), PIVOTS)?))
}

#[test]
fn a_choice_is_kept_for_a_point_below_the_limit(rt: HostRuntime) -> Result<(), Fail> {
    let alloc = rt.alloc();
    let case = case_in(alloc, BOUNDED_DECK)?;
    let shrunk = shrunk_point(alloc, &case)?.ok_or("it passes")?;
    let [(choice, Reason::Below(point))] = shrunk.kept.as_slice() else {
        assert!(rt; false, "one choice is kept, for a point");
        return Ok(());
    };
    assert_eq!(rt; *choice, side_a(0));
    assert!(rt; point.z < -4 * i128::from(point.d));
    Ok(())
}
