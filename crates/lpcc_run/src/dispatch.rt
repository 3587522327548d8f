//! Which command the words are, and its run.
ghost use Rattle.std.specs.Prelude.{◌≡◌, ◌↔◌, ◌≤◌, IfOk, IsTrue, List, MatchOption, map, string_bytes};
ghost use Rattle.lpcc_run.specs.Commands.{IsCommand, IsNoCommand, IsNoSolve, IsPossible, Runs, as_asked, by_one_worker};
ghost use Rattle.words.specs.declared.command.Command.TheVariants.{Generate, Solve};
ghost use Rattle.words.specs.declared.command.Draft.{Draft as Plan};

use crate::commands::{
    run_bilevel, run_branching, run_draft, run_lcp, run_session, run_solve_alone,
    run_solve_as_asked,
};
use command::Status;
use converting::convert;
use deck_gen::in_range;
use lp_io::{Sink, Source};
use relaxing::relax;
use std::alloc::{AllocError, Global};
use std::sync::Wait;
use std::thread::Threads;
use verifier::verify;
use words::{Command, MOST_WORKERS, Settings, command_of};
use worker::Gate;

fn is_possible(command: Command) -> bool
    ensures { IsTrue result ↔ IsPossible command }
{
    match command {
        Command::Check
        | Command::Migrate
        | Command::Relax(_)
        | Command::Tree(_)
        | Command::Edit(_)
        | Command::Lcp { .. }
        | Command::Bilevel { .. } => true,
        Command::Solve(settings) => 1 <= settings.workers && settings.workers <= MOST_WORKERS,
        Command::Generate(draft) => in_range(draft.columns, draft.rows, draft.pairs),
    }
}

/// The command that the words are.
pub(crate) fn command_in(alloc: Global, words: &[String]) -> Result<Option<Command>, AllocError>
    ensures { IfOk result (λ found. MatchOption found (IsNoCommand (map string_bytes words.now))
        (λ c. IsCommand (map string_bytes words.now) c)) }
{
    match command_of(alloc, words)? {
        None => Ok(None),
        Some(command) => {
            if is_possible(command) {
                Ok(Some(command))
            } else {
                Ok(None)
            }
        }
    }
}

// What is asked of a solve, where the command is one.
fn solve_of(command: Command) -> Option<Settings>
    requires { IsPossible command }
    ensures { MatchOption result (IsNoSolve command) (λ settings. (command ≡ Solve settings) × (1 ≤ settings.workers) × (settings.workers ≤ MOST_WORKERS)) }
{
    match command {
        Command::Solve(settings) => Some(settings),
        Command::Check
        | Command::Migrate
        | Command::Relax(_)
        | Command::Tree(_)
        | Command::Edit(_)
        | Command::Generate(_)
        | Command::Lcp { .. }
        | Command::Bilevel { .. } => None,
    }
}

/// Runs a command, `solve` with one worker.
pub(crate) fn run_command<S: Source, K: Sink>(
    alloc: Global,
    command: Command,
    src: &mut S,
    out: &mut K,
) -> Status
    requires { IsPossible command }
    ensures answered { Runs by_one_worker command (S.left src.old) (S.faults src.old) (S.faults src.new)
        (K.taken out.old) (K.taken out.new) (K.faults out.old) (K.faults out.new) result }
    ensures untouched { (d : Plan) → command ≡ Generate d → src.new ≡ src.old }
{
    match command {
        Command::Check => verify(alloc, src, out),
        Command::Migrate => convert(alloc, src, out),
        Command::Relax(pivots) => relax(alloc, pivots, src, out),
        Command::Solve(settings) => run_solve_alone(alloc, settings, src, out),
        Command::Tree(settings) => run_branching(alloc, settings, src, out),
        Command::Edit(settings) => run_session(alloc, settings, src, out),
        Command::Generate(draft) => run_draft(alloc, draft, out),
        Command::Lcp { solve } => run_lcp(alloc, solve, src, out),
        Command::Bilevel { solve } => run_bilevel(alloc, solve, src, out),
    }
}

/// Runs a command, `solve` with the workers that the words ask for.
pub(crate) fn run_command_as_asked<R: Threads + Wait + Sync, S: Source, K: Sink, G: Gate + Sync>(
    rt: &R,
    alloc: Global,
    command: Command,
    gate: &G,
    src: &mut S,
    out: &mut K,
) -> Status
    requires { IsPossible command }
    ensures answered { Runs as_asked command (S.left src.old) (S.faults src.old) (S.faults src.new)
        (K.taken out.old) (K.taken out.new) (K.faults out.old) (K.faults out.new) result }
    ensures untouched { (d : Plan) → command ≡ Generate d → src.new ≡ src.old }
{
    match solve_of(command) {
        Some(settings) => run_solve_as_asked(rt, alloc, settings, gate, src, out),
        None => run_command(alloc, command, src, out),
    }
}
