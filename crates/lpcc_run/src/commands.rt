//! Commands that the words may ask for in more than one way.
ghost use Rattle.std.specs.Prelude.{◌≤◌, ℕ, List, Option};
ghost use Rattle.deck_gen.specs.Generator.{IsInRange};
ghost use Rattle.lpcc_run.specs.Commands.{Runs, as_asked, by_one_worker};
ghost use Rattle.words.specs.declared.command.Command.TheVariants.{Bilevel, Edit, Generate, Lcp, Solve, Tree};

use crate::settings::{limits_of, many_workers, options_of, session_options, style_of, usual};
use branching::run_tree;
use command::Status;
use edit_solving::run_edits;
use front_solving::{solve_bilevel, solve_lcp};
use fronting::{print_bilevel, print_lcp};
use generating::{generate, generate_and_solve};
use lp_io::{Sink, Source};
use solving::{run_solve, run_solve_with};
use std::alloc::Global;
use std::sync::Wait;
use std::thread::Threads;
use words::{Draft, EditSettings, MOST_WORKERS, Settings, TreeSettings};
use worker::Gate;

/// Makes a deck, and solves it where that is asked for.
pub(crate) fn run_draft<K: Sink>(alloc: Global, draft: Draft, out: &mut K) -> Status
    requires { IsInRange draft.columns draft.rows draft.pairs }
    ensures { (left : Option (List ℕ)) (rb rn : ℕ) → Runs by_one_worker (Generate draft) left rb rn (K.taken out.old) (K.taken out.new) (K.faults out.old) (K.faults out.new) result }
{
    let columns = draft.columns as u32;
    let rows = draft.rows as u32;
    let pairs = draft.pairs as u32;
    if draft.solve {
        generate_and_solve(alloc, draft.seed, columns, rows, pairs, &usual(), out)
    } else {
        generate(alloc, draft.seed, columns, rows, pairs, out)
    }
}

/// Prints the deck of a complementarity problem, or solves it.
pub(crate) fn run_lcp<S: Source, K: Sink>(
    alloc: Global,
    solve: bool,
    src: &mut S,
    out: &mut K,
) -> Status
    ensures { Runs by_one_worker (Lcp solve) (S.left src.old) (S.faults src.old) (S.faults src.new)
        (K.taken out.old) (K.taken out.new) (K.faults out.old) (K.faults out.new) result }
{
    if solve {
        solve_lcp(alloc, &usual(), src, out)
    } else {
        print_lcp(alloc, src, out)
    }
}

/// Prints the deck of a bilevel problem, or solves it.
pub(crate) fn run_bilevel<S: Source, K: Sink>(
    alloc: Global,
    solve: bool,
    src: &mut S,
    out: &mut K,
) -> Status
    ensures { Runs by_one_worker (Bilevel solve) (S.left src.old) (S.faults src.old) (S.faults src.new)
        (K.taken out.old) (K.taken out.new) (K.faults out.old) (K.faults out.new) result }
{
    if solve {
        solve_bilevel(alloc, &usual(), src, out)
    } else {
        print_bilevel(alloc, src, out)
    }
}

/// Solves a deck with one worker.
pub(crate) fn run_solve_alone<S: Source, K: Sink>(
    alloc: Global,
    settings: Settings,
    src: &mut S,
    out: &mut K,
) -> Status
    ensures { Runs by_one_worker (Solve settings) (S.left src.old) (S.faults src.old) (S.faults src.new)
        (K.taken out.old) (K.taken out.new) (K.faults out.old) (K.faults out.new) result }
{
    run_solve(alloc, &options_of(settings), style_of(settings), src, out)
}

/// Runs `solve` with the workers that the words ask for.
pub(crate) fn run_solve_as_asked<R: Threads + Wait + Sync, S: Source, K: Sink, G: Gate + Sync>(
    rt: &R,
    alloc: Global,
    settings: Settings,
    gate: &G,
    src: &mut S,
    out: &mut K,
) -> Status
    requires { (1 ≤ settings.workers) × (settings.workers ≤ MOST_WORKERS) }
    ensures { Runs as_asked (Solve settings) (S.left src.old) (S.faults src.old) (S.faults src.new)
        (K.taken out.old) (K.taken out.new) (K.faults out.old) (K.faults out.new) result }
{
    match many_workers(settings) {
        Some(options) => run_solve_with(rt, alloc, &options, style_of(settings), gate, src, out),
        None => run_solve(alloc, &options_of(settings), style_of(settings), src, out),
    }
}

/// Solves a deck by a search by branching.
pub(crate) fn run_branching<S: Source, K: Sink>(
    alloc: Global,
    settings: TreeSettings,
    src: &mut S,
    out: &mut K,
) -> Status
    ensures { Runs by_one_worker (Tree settings) (S.left src.old) (S.faults src.old) (S.faults src.new)
        (K.taken out.old) (K.taken out.new) (K.faults out.old) (K.faults out.new) result }
{
    run_tree(alloc, &limits_of(settings), settings.brief, src, out)
}

/// Edits a deck by a script, and solves it on the way.
pub(crate) fn run_session<S: Source, K: Sink>(
    alloc: Global,
    settings: EditSettings,
    src: &mut S,
    out: &mut K,
) -> Status
    ensures { Runs by_one_worker (Edit settings) (S.left src.old) (S.faults src.old) (S.faults src.new)
        (K.taken out.old) (K.taken out.new) (K.faults out.old) (K.faults out.new) result }
{
    run_edits(alloc, &session_options(settings), src, out)
}
