//! A run with many workers.
ghost use Rattle.std.specs.Prelude.{◌≡◌, IfOk, IfSome};
ghost use Rattle.engine.specs.Solved.{IsEnded, IsSolved, PiecesLast, PivotsLast, VerdictsAreShown};

use crate::ended::ending_of;
use crate::opening::{first_pass, first_reach, open_best, open_desk};
use crate::threads::run_workers;
use engine::solve_alone;
use lpcc_case::Case;
use play::{Ending, Options};
use std::alloc::{AllocError, Global};
use std::sync::{Mutex, Wait};
use std::thread::Threads;
use worker::Gate;

/// Runs all workers, and asks the desk for its ending after they have returned. None where the desk
/// has none.
fn run<R: Threads + Wait + Sync, G: Gate + Sync>(
    rt: &R,
    alloc: Global,
    case: &Case,
    options: &Options,
    gate: &G,
) -> Result<Option<Ending>, AllocError>
    ensures { IfOk result (λ end. IfSome end (IsEnded case.now options.now)) }
{
    let (desk, reaches) = open_desk(alloc, case, options)?;
    let (best, passes) = open_best(alloc, options)?;
    let (reach, reaches) = first_reach(case, reaches);
    let (pass, passes) = first_pass(&best, passes);
    let desk = Mutex::new(desk);
    let reach = run_workers(
        rt, alloc, case, options, gate, &desk, &best, pass, reach, passes, reaches,
    );
    ending_of(alloc, case, options, desk.into_inner(), &reach)
}

/// Solves the case with as many workers as the options name, each in a thread of its own but the
/// first. They share a desk behind a lock, the incumbent, and the cuts that they publish.
///
/// The ending is that of a record of the run, as `solve_alone` says of its own. Where a worker has
/// left the desk for want of memory before there was a verdict, one worker solves the case anew.
/// `NoMemory` is free.
pub fn solve_with<R: Threads + Wait + Sync, G: Gate + Sync>(
    rt: &R,
    alloc: Global,
    case: &Case,
    options: &Options,
    gate: &G,
) -> Ending
    ensures ending { IsSolved case.now options.now result }
    ensures verdict { VerdictsAreShown case.now options.now result }
    ensures pieces { PiecesLast case.now options.now result }
    ensures pivots { PivotsLast case.now options.now result }
{
    let _pairs = case.pairs();
    let _workers = options.workers.number();
    match run(rt, alloc, case, options, gate) {
        Ok(Some(ending)) => ending,
        Ok(None) => solve_alone(alloc, case, options),
        Err(_) => Ending::NoMemory,
    }
}
