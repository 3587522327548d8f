//! The search by branching.
ghost use Rattle.std.specs.Prelude.{◌≡◌, [], IfOk, None};
ghost use Rattle.tree_engine.specs.Answers.{HasNodes, IsBranch, IsWholeTree};
ghost use Rattle.tree_engine.specs.Closings.{IsClosing, Stops};

use crate::answer::{Branch, BranchOptions};
use crate::closing::{Closing, closed};
use crate::state::State;
use crate::stop::Stop;
use lp_base::Sequence;
use lpcc_case::Case;
use nogoods::NoGood;
use probe::Probe;
use shrink::KnownPoints;
use std::alloc::{AllocError, Global};

/// The answer where the run has stopped.
fn stopped(case: &Case, options: &BranchOptions, state: State, stop: Stop) -> Branch
    requires { Stops case.now options.now state.run stop }
    ensures answer { IsBranch case.now options.now result }
    ensures enough { IsWholeTree case.now options.now → HasNodes result }
{
    let State { run, .. } = state;
    match stop {
        Stop::Unbounded(piece, point, ray) => Branch::Unbounded {
            piece,
            point,
            ray,
            nodes: run.len() as u64 + 1,
        },
        Stop::Wide(piece, at) => Branch::Overflow { piece, at, run },
        Stop::Spent(piece, at) => Branch::PivotsSpent { piece, at, run },
        Stop::Nodes(left) => Branch::NodesSpent {
            nodes: run.len() as u64,
            left,
            run,
        },
    }
}

/// The answer of a run from the root.
fn answer_of(case: &Case, options: &BranchOptions, state: State, closing: Closing) -> Branch
    requires { IsClosing case.now options.now [] [] None state.run state.best closing }
    ensures answer { IsBranch case.now options.now result }
    ensures enough { IsWholeTree case.now options.now → HasNodes result }
{
    match closing {
        Closing::Tree(tree) => Branch::Closed {
            nodes: state.run.len() as u64,
            best: state.best,
            tree,
        },
        Closing::Stop(stop) => stopped(case, options, state, stop),
    }
}

/// The state without nodes and without a best point.
fn start(alloc: Global, case: &Case) -> Result<State, AllocError>
    ensures run { IfOk result (λ s. s.run ≡ []) }
    ensures best { IfOk result (λ s. s.best ≡ None) }
{
    Ok(State {
        run: Sequence::new(alloc),
        best: None,
        known: KnownPoints::new(alloc),
        probe: Probe::of_case(alloc, case)?,
    })
}

/// The path without choices.
pub fn root(alloc: Global) -> Result<NoGood, AllocError>
    ensures { IfOk result (λ path. path ≡ []) }
{
    let Some(path) = NoGood::from_choices(alloc, &[])? else {
        unreachable!();
    };
    Ok(path)
}

/// Searches for the verdict of a case. The program of a path of choices is solved, the empty path
/// first. Where no point of it is lower than the best one, or its point is complementary and
/// becomes the best one, the node is a leaf, whose cut is shrunk. Else it is split at the first
/// pair without a tight member or, where there is no optimum, at the first pair that is not on the
/// path, and side A with all below it comes before side B.
///
/// With as many nodes as a whole tree over the pairs has, they are never spent.
///
/// # Errors
///
/// Want of memory alone.
pub fn branch(alloc: Global, case: &Case, options: &BranchOptions) -> Result<Branch, AllocError>
    ensures answer { IfOk result (IsBranch case.now options.now) }
    ensures enough { IsWholeTree case.now options.now → IfOk result HasNodes }
{
    let mut state = start(alloc, case)?;
    let path = root(alloc)?;
    let closing = closed(alloc, case, options, &mut state, &path)?;
    Ok(answer_of(case, options, state, closing))
}
