//! The best: a row of offers, and two threads that exchange.
ghost use Rattle.std.specs.Prelude.{◌≡◌, IfOk};
ghost use Rattle.best.specs.Passes.{IsPassOf};

use best::{Best, BestPass};
use lp_base::Sequence;
use lpcc_case::Point;
use std::alloc::{AllocError, Global};
use std::sync::Wait;
use std::test::Fail;
use std::thread;

/// A point with this cost over this denominator.
fn point(alloc: Global, z: i128, d: i64) -> Point {
    Point {
        d,
        x: Sequence::new(alloc),
        z,
    }
}

/// Offers a point or none, and gives the cost and the denominator of the newest one.
fn offer<R: Wait>(
    rt: &R,
    alloc: Global,
    best: &Best<Point>,
    pass: &mut BestPass<Point>,
    offer: Option<Point>,
) -> Result<Option<(i128, i64)>, AllocError>
    requires ours { IsPassOf best.now pass.old }
    ensures ours { IsPassOf best.now pass.new }
{
    match best.exchange(rt, alloc, pass, offer)? {
        Some(point) => Ok(Some((point.z, point.d))),
        None => Ok(None),
    }
}

#[test]
fn the_first_of_the_lowest_is_kept(rt: HostRuntime) -> Result<(), Fail> {
    let alloc: Global = rt.alloc();
    let (best, mut passes) = Best::create(alloc, 1)?;
    let pass = &mut passes[0];
    assert!(rt; Best::glance(pass).is_none());
    let five = Some(point(alloc, 5, 1));
    assert_eq!(rt; offer(&rt, alloc, &best, pass, five)?, Some((5, 1)));
    let another = Some(point(alloc, 10, 2));
    assert_eq!(rt; offer(&rt, alloc, &best, pass, another)?, Some((5, 1)));
    let seven = Some(point(alloc, 7, 1));
    assert_eq!(rt; offer(&rt, alloc, &best, pass, seven)?, Some((5, 1)));
    assert_eq!(rt; offer(&rt, alloc, &best, pass, None)?, Some((5, 1)));
    let three = Some(point(alloc, 3, 1));
    assert_eq!(rt; offer(&rt, alloc, &best, pass, three)?, Some((3, 1)));
    let last = Best::glance(pass).ok_or("none")?;
    assert_eq!(rt; last.z, 3);
    Ok(())
}

/// Offers 100 points whose costs go down from this one. Gives whether each answer was at most its
/// offer and at most the answer before, and the pass.
fn offer_down<R: Wait>(
    rt: &R,
    alloc: Global,
    best: &Best<Point>,
    mut pass: BestPass<Point>,
    highest: u8,
) -> Result<(bool, BestPass<Point>), AllocError>
    requires ours { IsPassOf best.now pass }
    ensures ours { IfOk result (λ r. IsPassOf best.now r.1) }
{
    let mut before = i128::MAX;
    let mut right = true;
    for k in 0..100u8 {
        let cost = highest.saturating_sub(k) as i128;
        let answer = offer(rt, alloc, best, &mut pass, Some(point(alloc, cost, 1)))?;
        let (z, _) = answer.unwrap_or((i128::MAX, 1));
        right = right && z <= cost && z <= before;
        before = z;
    }
    Ok((right, pass))
}

#[test]
fn two_threads_lower_one_best(rt: HostRuntime) -> Result<(), Fail> {
    let alloc: Global = rt.alloc();
    let (best, mut passes) = Best::create(alloc, 2)?;
    let first = passes.pop().expect(&rt, "two passes");
    let second = passes.pop().expect(&rt, "two passes");
    let shared = &best;
    let runtime = &rt;
    let (a, b) = thread::join(
        &rt,
        move || offer_down(runtime, alloc, shared, first, 200),
        move || offer_down(runtime, alloc, shared, second, 150),
    );
    let (right, mut pass) = a?;
    assert!(rt; right);
    let (right, _) = b?;
    assert!(rt; right);
    assert_eq!(rt; offer(&rt, alloc, &best, &mut pass, None)?, Some((51, 1)));
    Ok(())
}
