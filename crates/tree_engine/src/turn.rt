//! One node of a run.
ghost use Rattle.std.specs.Prelude.{◌≡◌, ◌<◌, ◌≤◌, ◌∷◌, ◌++◌, [], IfOk, List, OnOk, Some, length};
ghost use Rattle.std.specs.Option.{option_copied};
ghost use Rattle.lex_simplex.specs.Answers.{IsAnswer};
ghost use Rattle.cert_check.specs.Acceptance.{IsWholePiece};
ghost use Rattle.tree_engine.specs.Bests.{IsBest, IsCandidate};
ghost use Rattle.tree_engine.specs.Closings.{IsLeaf, IsTurn, MayClose, Stops, node_at};
ghost use Rattle.tree_engine.specs.Nodes.{IsOpen, IsVisit};
ghost use Rattle.tree_engine.specs.Runs.{IsFurther, IsRun, IsSplitAt};
ghost use Rattle.tree_engine.specs.Trees.{IsLeafCut};
ghost use Rattle.tree_engine.specs.declared.node.Node.{Node as Solved};

use crate::paths::piece_of;
use crate::state::State;
use crate::stop::Stop;
use crate::visit::{Visit, visited};
use crate::{BranchOptions, Node, NodeEnd};
use cuts::Cut;
use lex_simplex::LpAnswer;
use lpcc_case::{Case, Point};
use nogoods::NoGood;
use shrink::shrink_with_probe;
use std::alloc::{AllocError, Global};

/// What a node comes to.
#[derive(Drop)]
pub enum Turn {
    /// It is a leaf.
    Leaf(Cut),
    /// It is split at this pair.
    Split(u32),
    /// The run stops there.
    Stop(Stop),
}

/// An equal point, where there is one.
fn copy_best(alloc: Global, best: Option<&Point>) -> Result<Option<Point>, AllocError>
    ensures { IfOk result (λ made. made ≡ option_copied best.entry) }
{
    match best {
        Some(point) => Ok(Some(point.copy(alloc)?)),
        None => Ok(None),
    }
}

/// The node of a path with the best point so far.
fn node_of(
    alloc: Global,
    path: &NoGood,
    best: Option<&Point>,
    end: NodeEnd,
) -> Result<Node, AllocError>
    ensures { IfOk result (λ n. n ≡ node_at path.now (option_copied best.entry) end) }
{
    Ok(Node {
        path: path.copy(alloc)?,
        best: copy_best(alloc, best)?,
        end,
    })
}

/// Adds the node of a path to the run.
fn add_node(alloc: Global, state: &mut State, path: &NoGood, end: NodeEnd) -> Result<(), AllocError>
    ensures run { OnOk result (state.new.run ≡ state.old.run ++ node_at path.now state.old.best end ∷ []) }
    ensures best { state.new.best ≡ state.old.best }
{
    let node = node_of(alloc, path, state.best.as_ref(), end)?;
    state.run.push(node)?;
    Ok(())
}

/// The cut of a leaf without the choices that it does not need.
fn shrunk(
    alloc: Global,
    case: &Case,
    options: &BranchOptions,
    state: &mut State,
    path: &NoGood,
    cut: Cut,
) -> Result<Cut, AllocError>
    requires best { IsBest case.now state.old.best }
    requires cut { IsLeafCut case.now state.old.best path.now cut }
    ensures cut { IfOk result (IsLeafCut case.now state.old.best path.now) }
    ensures run { state.new.run ≡ state.old.run }
    ensures best { state.new.best ≡ state.old.best }
{
    let shrunk = shrink_with_probe(
        alloc,
        case,
        cut,
        state.best.as_ref(),
        options.pivots,
        &mut state.known,
        &mut state.probe,
    )?;
    Ok(shrunk.cut)
}

/// Makes the node a leaf, the best point being what it is now.
fn leaf(
    alloc: Global,
    case: &Case,
    options: &BranchOptions,
    state: &mut State,
    path: &NoGood,
    cut: Cut,
) -> Result<Turn, AllocError>
    requires best { IsBest case.now state.old.best }
    requires cut { IsLeafCut case.now state.old.best path.now cut }
    ensures best { state.new.best ≡ state.old.best }
    ensures leaf { IfOk result (IsLeaf case.now path.now state.old.run state.new.run state.new.best) }
{
    let cut = shrunk(alloc, case, options, state, path, cut)?;
    add_node(alloc, state, path, NodeEnd::Leaf(cut.copy(alloc)?))?;
    Ok(Turn::Leaf(cut))
}

/// Takes a new best point, and makes the node a leaf.
fn improved_leaf(
    alloc: Global,
    case: &Case,
    options: &BranchOptions,
    state: &mut State,
    path: &NoGood,
    point: Point,
    cut: Cut,
) -> Result<Turn, AllocError>
    requires point { IsCandidate case.now point }
    requires cut { IsLeafCut case.now (Some point) path.now cut }
    ensures best { state.new.best ≡ Some point }
    ensures leaf { IfOk result (IsLeaf case.now path.now state.old.run state.new.run state.new.best) }
{
    state.best = Some(point);
    leaf(alloc, case, options, state, path, cut)
}

/// Splits the node.
fn split(
    alloc: Global,
    case: &Case,
    options: &BranchOptions,
    state: &mut State,
    path: &NoGood,
    pair: u32,
    answer: LpAnswer,
) -> Result<Turn, AllocError>
    requires may { MayClose case.now options.now path.now state.old.run state.old.best }
    requires room { length state.old.run < options.now.nodes }
    requires split { IsSplitAt case.now options.now.pivots state.old.best path.now pair answer }
    ensures { IfOk result (IsTurn case.now options.now path.now state.old.run state.old.best state.new.run state.new.best) }
{
    add_node(alloc, state, path, NodeEnd::Split(pair, answer))?;
    Ok(Turn::Split(pair))
}

/// Why the run stops at a node with a choice for every pair.
fn stop_at(
    alloc: Global,
    case: &Case,
    options: &BranchOptions,
    path: &NoGood,
    answer: LpAnswer,
) -> Result<Stop, AllocError>
    requires whole { IsWholePiece case.now path.now }
    requires open { IsOpen answer }
    requires answer { IsAnswer case.now path.now options.now.pivots answer }
    ensures { (run : List Solved) → IsRun case.now options.now.pivots run → IsFurther run path.now → IfOk result (Stops case.now options.now run) }
{
    let piece = piece_of(alloc, path)?;
    match answer {
        LpAnswer::Unbounded(point, ray) => Ok(Stop::Unbounded(piece, point, ray)),
        LpAnswer::Wide(at) => Ok(Stop::Wide(piece, at)),
        LpAnswer::Spent(at) => Ok(Stop::Spent(piece, at)),
        LpAnswer::Infeasible(_) | LpAnswer::Optimum(..) => unreachable!(),
    }
}

/// What the program of the node makes of it.
fn settled(
    alloc: Global,
    case: &Case,
    options: &BranchOptions,
    state: &mut State,
    path: &NoGood,
    visit: Visit,
) -> Result<Turn, AllocError>
    requires may { MayClose case.now options.now path.now state.old.run state.old.best }
    requires room { length state.old.run < options.now.nodes }
    requires visit { IsVisit case.now options.now.pivots state.old.best path.now visit }
    ensures { IfOk result (IsTurn case.now options.now path.now state.old.run state.old.best state.new.run state.new.best) }
{
    match visit {
        Visit::Closed(cut) => leaf(alloc, case, options, state, path, cut),
        Visit::Improved(point, cut) => {
            improved_leaf(alloc, case, options, state, path, point, cut)
        },
        Visit::Split(pair, answer) => split(alloc, case, options, state, path, pair, answer),
        Visit::Whole(answer) => Ok(Turn::Stop(stop_at(alloc, case, options, path, answer)?)),
    }
}

/// The run stops before the node of the path, since there are as many nodes as may be.
fn stop_before(
    alloc: Global,
    case: &Case,
    options: &BranchOptions,
    state: &State,
    path: &NoGood,
) -> Result<Stop, AllocError>
    requires may { MayClose case.now options.now path.now state.now.run state.now.best }
    requires all { options.now.nodes ≤ length state.now.run }
    ensures { IfOk result (Stops case.now options.now state.now.run) }
{
    let left = path.copy(alloc)?;
    Ok(Stop::Nodes(left))
}

/// Solves the program of the path, and adds its node to the run.
pub fn turn_at(
    alloc: Global,
    case: &Case,
    options: &BranchOptions,
    state: &mut State,
    path: &NoGood,
) -> Result<Turn, AllocError>
    requires { MayClose case.now options.now path.now state.old.run state.old.best }
    ensures { IfOk result (IsTurn case.now options.now path.now state.old.run state.old.best state.new.run state.new.best) }
{
    if state.run.len() as u64 >= options.nodes {
        let stop = stop_before(alloc, case, options, state, path)?;
        return Ok(Turn::Stop(stop));
    }
    let visit = visited(alloc, case, path, state.best.as_ref(), options.pivots)?;
    settled(alloc, case, options, state, path, visit)
}
