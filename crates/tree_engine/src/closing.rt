//! The run below a node, depth first.
ghost use Rattle.std.specs.Prelude.{◌≡◌, IfOk, List, Option};
ghost use Rattle.lpcc_case.specs.declared.point.Point.{Point as Place};
ghost use Rattle.tree_engine.specs.Closings.{IsClosing, IsHalfClosed, IsSplit, Closes, MayClose, WasHalfClosed, WasSplit};
ghost use Rattle.tree_engine.specs.Paths.{second_side};
ghost use Rattle.tree_engine.specs.declared.node.Node.{Node as Solved};

use crate::paths::extended;
use crate::state::State;
use crate::stop::Stop;
use crate::turn::{Turn, turn_at};
use crate::{BranchOptions, Tree};
use lpcc_case::Case;
use nogoods::{Choice, NoGood, Side};
use std::alloc::{AllocError, Global};

/// What a node and all below it come to.
#[derive(Drop)]
pub enum Closing {
    /// A tree that holds.
    Tree(Tree),
    /// The run stops.
    Stop(Stop),
}

fn joined(
    alloc: Global,
    case: &Case,
    options: &BranchOptions,
    path: &NoGood,
    pair: u32,
    a: Tree,
    b: Tree,
) -> Result<Closing, AllocError>
    ensures { (old half : List Solved) (best then : Option Place) (run : List Solved) (now : Option Place) →
        IsHalfClosed case.now options.now path.now pair old best half then a →
        Closes case.now options.now (second_side pair path.now) half then run now b →
        IfOk result (IsClosing case.now options.now path.now old best run now) }
{
    let a = Box::new(alloc, a)?;
    let b = Box::new(alloc, b)?;
    Ok(Closing::Tree(Tree::Split { pair, a, b }))
}

/// The node of the path, and below it side A with all below that, then side B.
#[cycle(closing)]
pub fn closed(
    alloc: Global,
    case: &Case,
    options: &BranchOptions,
    state: &mut State,
    path: &NoGood,
) -> Result<Closing, AllocError>
    requires { MayClose case.now options.now path.now state.old.run state.old.best }
    ensures { IfOk result (IsClosing case.now options.now path.now state.old.run state.old.best state.new.run state.new.best) }
{
    let turn = turn_at(alloc, case, options, state, path)?;
    match turn {
        Turn::Leaf(cut) => Ok(Closing::Tree(Tree::Leaf(cut))),
        Turn::Stop(stop) => Ok(Closing::Stop(stop)),
        Turn::Split(pair) => closed_sides(alloc, case, options, state, path, pair),
    }
}

/// What is below a node that was split.
#[cycle(closing)]
fn closed_sides(
    alloc: Global,
    case: &Case,
    options: &BranchOptions,
    state: &mut State,
    path: &NoGood,
    pair: u32,
) -> Result<Closing, AllocError>
    requires { WasSplit case.now options.now path.now pair state.old.run state.old.best }
    ensures { (old : List Solved) (best : Option Place) → IsSplit case.now options.now path.now pair old best state.old.run state.old.best →
        IfOk result (IsClosing case.now options.now path.now old best state.new.run state.new.best) }
{
    let side = Side::A;
    let first = extended(alloc, path, Choice { pair, side })?;
    let closing = closed(alloc, case, options, state, &first)?;
    match closing {
        Closing::Tree(a) => closed_second(alloc, case, options, state, path, pair, a),
        Closing::Stop(stop) => Ok(Closing::Stop(stop)),
    }
}

/// What is below side B of a node that was split, when all below side A is closed.
#[cycle(closing)]
fn closed_second(
    alloc: Global,
    case: &Case,
    options: &BranchOptions,
    state: &mut State,
    path: &NoGood,
    pair: u32,
    a: Tree,
) -> Result<Closing, AllocError>
    requires { WasHalfClosed case.now options.now path.now pair state.old.run state.old.best a }
    ensures { (old : List Solved) (best : Option Place) → IsHalfClosed case.now options.now path.now pair old best state.old.run state.old.best a →
        IfOk result (IsClosing case.now options.now path.now old best state.new.run state.new.best) }
{
    let side = Side::B;
    let second = extended(alloc, path, Choice { pair, side })?;
    let closing = closed(alloc, case, options, state, &second)?;
    match closing {
        Closing::Tree(b) => joined(alloc, case, options, path, pair, a, b),
        Closing::Stop(stop) => Ok(Closing::Stop(stop)),
    }
}
