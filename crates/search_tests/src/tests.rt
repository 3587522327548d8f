//! Rows and random logs.
use crate::{Answer, find, is_barred, piece_of};
use derivation::Log;
use nogoods::{Choice, NoGood, Side};
use std::alloc::{AllocError, Global};
use std::test::Fail;

const A: Side = Side::A;

const B: Side = Side::B;

/// Adds a start of choices at pairs that ascend.
fn start(alloc: Global, log: &mut Log, list: &[(u32, Side)]) -> Result<(), AllocError> {
    let mut choices = Vec::new(alloc);
    for (pair, side) in list {
        choices.push(Choice {
            pair: *pair,
            side: *side,
        })?;
    }
    match NoGood::from_choices(alloc, choices.as_slice())? {
        Some(ng) => log.start(ng),
        None => Ok(()),
    }
}

#[test]
fn two_pairs(rt: HostRuntime) -> Result<(), Fail> {
    let alloc = rt.alloc();
    let mut log = Log::create(alloc);
    start(alloc, &mut log, &[(0, A)])?;
    start(alloc, &mut log, &[(0, B), (1, A)])?;
    assert_eq!(rt; find(alloc, &mut log, 2, &[])?, Answer::Piece(3));
    assert_eq!(rt; find(alloc, &mut log, 2, &[3])?, Answer::Blocked);
    assert_eq!(rt;
        log.steps().len(),
        2,
        "nothing is learned from a blocked piece"
    );
    start(alloc, &mut log, &[(1, B)])?;
    assert_eq!(rt; find(alloc, &mut log, 2, &[3])?, Answer::Refuted);
    assert_eq!(rt; log.steps().len(), 4, "one step, by the hints 1 2 3");
    Ok(())
}

#[test]
fn three_pairs(rt: HostRuntime) -> Result<(), Fail> {
    let alloc = rt.alloc();
    let mut log = Log::create(alloc);
    start(alloc, &mut log, &[(0, A), (1, A)])?;
    start(alloc, &mut log, &[(0, A), (1, B)])?;
    start(alloc, &mut log, &[(0, B)])?;
    assert_eq!(rt; find(alloc, &mut log, 3, &[])?, Answer::Refuted);
    Ok(())
}

#[test]
fn no_pairs(rt: HostRuntime) -> Result<(), Fail> {
    let alloc = rt.alloc();
    let mut log = Log::create(alloc);
    assert_eq!(rt; find(alloc, &mut log, 0, &[])?, Answer::Piece(0));
    assert_eq!(rt; find(alloc, &mut log, 0, &[0])?, Answer::Blocked);
    Ok(())
}

/// A number below the bound by a linear congruence, 0 where the bound is 0.
fn random(seed: &mut u64, bound: u32) -> u32 {
    *seed = (*seed)
        .wrapping_mul(6364136223846793005)
        .wrapping_add(1442695040888963407);
    let high = (*seed >> 33) as u32;
    if bound == 0 { 0 } else { high % bound }
}

/// Adds a start with all pairs, or about a half, a third or a quarter of them.
fn random_start(
    alloc: Global,
    log: &mut Log,
    pairs: u32,
    seed: &mut u64,
) -> Result<(), AllocError> {
    let mut list = Vec::new(alloc);
    let spread = random(seed, 5);
    for pair in 0..pairs {
        if random(seed, spread) == 0 {
            list.push((pair, if random(seed, 2) == 0 { A } else { B }))?;
        }
    }
    start(alloc, log, list.as_slice())
}

/// What stands first among all pieces in a row.
fn first_of_all(
    alloc: Global,
    log: &Log,
    pairs: u32,
    blocked: &[u32],
) -> Result<Answer, AllocError> {
    let mut answer = Answer::Refuted;
    for number in 0..1u32 << pairs.min(8) {
        if is_barred(log, &piece_of(alloc, pairs, number)?) {
            continue;
        }
        if !blocked.contains(&number) {
            return Ok(Answer::Piece(number));
        }
        answer = Answer::Blocked;
    }
    Ok(answer)
}

/// The same for a log of random starts, some of its pieces blocked.
fn random_log(alloc: Global, seed: &mut u64) -> Result<(Answer, Answer), AllocError> {
    let pairs = random(seed, 9).min(8);
    let mut log = Log::create(alloc);
    for _ in 0..random(seed, 24) {
        random_start(alloc, &mut log, pairs, seed)?;
    }
    let mut blocked = Vec::new(alloc);
    let spread = random(seed, 40);
    for number in 0..1u32 << pairs {
        if random(seed, spread) > 0 {
            blocked.push(number)?;
        }
    }
    let wanted = first_of_all(alloc, &log, pairs, blocked.as_slice())?;
    let found = find(alloc, &mut log, pairs, blocked.as_slice())?;
    Ok((found, wanted))
}

/// One more, where the answer is this one.
fn counted(count: u32, found: Answer, answer: Answer) -> u32 {
    if found == answer {
        count.wrapping_add(1)
    } else {
        count
    }
}

#[test]
fn random_logs(rt: HostRuntime) -> Result<(), Fail> {
    let mut seed = 7;
    let mut refuted = 0;
    let mut blocked = 0;
    for _ in 0..2000 {
        let (found, wanted) = random_log(rt.alloc(), &mut seed)?;
        assert_eq!(rt; found, wanted);
        refuted = counted(refuted, found, Answer::Refuted);
        blocked = counted(blocked, found, Answer::Blocked);
    }
    assert!(rt; refuted >= 200, "{refuted} are refuted");
    assert!(rt; blocked >= 200, "in {blocked} all that is left is blocked");
    assert!(rt;
        refuted <= 1500 && blocked <= 400,
        "some piece is left in most"
    );
    Ok(())
}
