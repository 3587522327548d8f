//! The pool: a lane that grows.
ghost use Rattle.std.specs.Prelude.{◌≡◌, ◌<◌, IfOk, length};
ghost use Rattle.cut_words.specs.Words.{item_length, SpellsPassing};
ghost use Rattle.cut_pool.specs.Shelves.{Fits};
ghost use Rattle.pool_tests.specs.declared.small.TheConstants.{CUT};

use crate::{CUT, small_case};
use cut_pool::{Reach, Shelf};
use cut_words::{are_passing_words, item_length};
use lpcc_case::Case;
use std::alloc::{AllocError, Global};
use std::test::Fail;

/// A shelf of two workers, and their reaches.
fn two_workers(alloc: Global, case: &Case) -> Result<(Shelf, Reach, Reach), Fail>
    ensures { IfOk result (λ made. made.0.case ≡ case.now) }
{
    let (shelf, mut reaches) = Shelf::create(alloc, case, 2)?;
    let second = reaches.pop().ok_or("two reaches")?;
    let first = reaches.pop().ok_or("two reaches")?;
    Ok((shelf, first, second))
}

/// Readies a worker, if its reach fits.
fn ready(
    alloc: Global,
    shelf: &mut Shelf,
    worker: u32,
    reach: &mut Reach,
) -> Result<bool, AllocError>
    ensures case { shelf.new.case ≡ shelf.old.case }
{
    if !shelf.fits(worker, reach) {
        return Ok(false);
    }
    shelf.ready(alloc, worker, reach)?;
    Ok(true)
}

/// The first worker is readied and publishes the cut, if its reach fits.
fn publish_one(alloc: Global, shelf: &mut Shelf, reach: &mut Reach) -> Result<bool, AllocError>
    requires { SpellsPassing shelf.old.case CUT }
    ensures { shelf.new.case ≡ shelf.old.case }
{
    if !shelf.fits(0, reach) {
        return Ok(false);
    }
    shelf.ready(alloc, 0, reach)?;
    reach.publish(&CUT);
    Ok(true)
}

fn publish_often(
    alloc: Global,
    shelf: &mut Shelf,
    reach: &mut Reach,
    count: u32,
) -> Result<bool, AllocError>
    requires { SpellsPassing shelf.old.case CUT }
    ensures { shelf.new.case ≡ shelf.old.case }
{
    for _ in 0..count {
        if !publish_one(alloc, shelf, reach)? {
            return Ok(false);
        }
    }
    Ok(true)
}

/// How often the lane of the first worker gives the cut to the second, up to the first time that it
/// gives none.
fn read_often(shelf: &Shelf, reach: &mut Reach) -> u32
    requires { item_length shelf.now.case ≡ 10 }
{
    if !shelf.fits(1, reach) {
        return 0;
    }
    let mut into = [0; 10];
    let mut count = 0;
    for _ in 0..100u32 {
        if !reach.next(0, &mut into) {
            return count;
        }
        count += 1;
    }
    count
}

#[test]
fn a_lane_grows(rt: HostRuntime) -> Result<(), Fail> {
    let alloc = rt.alloc();
    let case = small_case(alloc)?;
    assert!(rt; are_passing_words(&case, &CUT));
    assert!(rt; item_length(&case) == 10);
    let (mut shelf, mut first, mut second) = two_workers(alloc, &case)?;
    assert!(rt; ready(alloc, &mut shelf, 1, &mut second)?);
    assert!(rt; publish_often(alloc, &mut shelf, &mut first, 17)?);
    assert_eq!(rt; read_often(&shelf, &mut second), 16);
    assert!(rt; ready(alloc, &mut shelf, 1, &mut second)?);
    assert_eq!(rt; read_often(&shelf, &mut second), 1);
    assert!(rt; !shelf.fits(0, &second));
    assert_eq!(rt; first.spare(), 31);
    Ok(())
}
