//! The workers of a run, in a scope of threads.
ghost use Rattle.std.specs.Prelude.{◌≡◌, All};
ghost use Rattle.best.specs.Passes.{IsPassOf};
ghost use Rattle.crew.specs.Crews.{AreReachesOf};

use best::{Best, BestPass};
use cut_pool::Reach;
use desk::Desk;
use lpcc_case::{Case, Point};
use play::Options;
use std::alloc::Global;
use std::sync::{Condvar, Mutex, Wait};
use std::thread;
use std::thread::{Scope, SpawnError, Threads};
use worker::{Gate, work};

/// Runs one worker to its end, and gives its reach back.
fn run_one<R: Wait, G: Gate + Sync>(
    rt: &R,
    alloc: Global,
    case: &Case,
    options: &Options,
    gate: &G,
    desk: &Mutex<Desk>,
    bell: &Condvar,
    best: &Best<Point>,
    pass: BestPass<Point>,
    reach: Reach,
) -> Reach
    requires pass { IsPassOf best.now pass }
    requires case { reach.case ≡ case.now }
{
    let mut pass = pass;
    let mut reach = reach;
    let worker = reach.worker();
    work(
        rt, alloc, case, desk, bell, best, &mut pass, &mut reach, worker, options, gate,
    );
    reach
}

/// Runs here what no thread could be made for.
fn run_refused<F: FnOnce() -> Reach>(refused: SpawnError<F>)
    requires { F.pre refused.value }
{
    let SpawnError { value } = refused;
    let _reach = value();
}

/// Starts a worker in a thread of the scope. Where no thread can be made it runs here.
fn start<'s, E, R: Wait + Sync, G: Gate + Sync>(
    scope: &Scope<'s, E>,
    rt: &'s R,
    alloc: Global,
    case: &'s Case,
    options: &'s Options,
    gate: &'s G,
    desk: &'s Mutex<Desk>,
    bell: &'s Condvar,
    best: &'s Best<Point>,
    pass: BestPass<Point>,
    reach: Reach,
)
    requires pass { IsPassOf best.now pass }
    requires case { reach.case ≡ case.now }
{
    let run = move || -> Reach
        requires { IsPassOf best.now pass × (reach.case ≡ case.now) }
    {
        run_one(
            rt, alloc, case, options, gate, desk, bell, best, pass, reach,
        )
    };
    if let Err(refused) = scope.spawn(run) {
        run_refused(refused);
    }
}

/// Starts the workers of these passes and reaches, the last one first.
fn start_all<'s, E, R: Wait + Sync, G: Gate + Sync>(
    scope: &Scope<'s, E>,
    rt: &'s R,
    alloc: Global,
    case: &'s Case,
    options: &'s Options,
    gate: &'s G,
    desk: &'s Mutex<Desk>,
    bell: &'s Condvar,
    best: &'s Best<Point>,
    passes: Vec<BestPass<Point>>,
    reaches: Vec<Reach>,
)
    requires passes { All (IsPassOf best.now) passes.items }
    requires reaches { AreReachesOf case.now reaches.items }
{
    let mut passes = passes;
    let mut reaches = reaches;
    while let Some(reach) = reaches.pop() {
        let Some(pass) = passes.pop() else {
            return;
        };
        start(
            scope, rt, alloc, case, options, gate, desk, bell, best, pass, reach,
        );
    }
}

/// Runs one worker in this thread, and each other one in a thread of its own. One whose thread
/// cannot be started runs in this one. It returns when all have returned, with the reach of the one.
pub fn run_workers<R: Threads + Wait + Sync, G: Gate + Sync>(
    rt: &R,
    alloc: Global,
    case: &Case,
    options: &Options,
    gate: &G,
    desk: &Mutex<Desk>,
    best: &Best<Point>,
    pass: BestPass<Point>,
    reach: Reach,
    passes: Vec<BestPass<Point>>,
    reaches: Vec<Reach>,
) -> Reach
    requires pass { IsPassOf best.now pass }
    requires case { reach.case ≡ case.now }
    requires passes { All (IsPassOf best.now) passes.items }
    requires reaches { AreReachesOf case.now reaches.items }
{
    let bell = Condvar::new();
    let ring = &bell;
    thread::scope(
        thread::scope_env(),
        rt,
        move |scope| -> Reach
            requires { IsPassOf best.now pass × (reach.case ≡ case.now) × All (IsPassOf best.now) passes.items × AreReachesOf case.now reaches.items }
        {
            start_all(
                scope, rt, alloc, case, options, gate, desk, ring, best, passes, reaches,
            );
            run_one(
                rt, alloc, case, options, gate, desk, ring, best, pass, reach,
            )
        },
    )
}
