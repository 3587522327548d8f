//! The derivation that a tree makes.
ghost use Rattle.std.specs.Prelude.{◌≡◌, ◌<◌, ◌∷◌, ◌++◌, [], IfOk, IsTrue, OnOk, length, true};
ghost use Rattle.std.specs.Option.{option_copied};
ghost use Rattle.lpcc_case.specs.Pieces.{NamesPairs};
ghost use Rattle.nogoods.specs.declared.choice.Side.TheVariants as side_of;
ghost use Rattle.derivation.specs.declared.step.Step.TheVariants as step_of;
ghost use Rattle.tree_engine.specs.Paths.{choice_of};
ghost use Rattle.tree_engine.specs.Trees.{Holds, IsLeafCut};
ghost use Rattle.tree_engine.specs.declared.tree.Tree.TheVariants as shape;
ghost use Rattle.nogoods.specs.Choices.{pairs_ascend};
ghost use Rattle.cuts.specs.Cuts.{no_good_of};
ghost use Rattle.derivation.specs.HintRuns.{closes, is_assumed};
ghost use Rattle.derivation.specs.Logs.{no_goods};
ghost use Rattle.tree_certs.specs.Derivations.{resolvent};
ghost use Rattle.tree_certs.specs.Refuting.{AreSides, IsRefuted, IsResolved, IsSound, ng_at};

use crate::resolving::{has, resolvent};
use cuts::Cut;
use derivation::{Log, NoGoods};
use lp_base::Sequence;
use lpcc_case::{Case, Point};
use nogoods::{Choice, NoGood, Side};
use std::alloc::{AllocError, Global};
use tree_engine::{Tree, extended};

/// Cuts, and a log whose starting steps are their no-goods.
#[derive(Drop)]
pub struct Derivation {
    pub cuts: Sequence<Cut>,
    pub log: Log,
}

fn count(log: &Log) -> usize
    ensures { result ≡ length log.now }
{
    log.steps().len()
}

/// The no-good of a cut.
fn held_no_good(cut: &Cut) -> &NoGood
    ensures same { result.now ≡ no_good_of cut.now }
    ensures ascending { IsTrue (pairs_ascend result.now) }
{
    let held = cut.no_good();
    let _choices = held.choices();
    held
}

fn add_leaf(made: &mut Derivation, ng: NoGood, cut: Cut) -> Result<(), AllocError>
    ensures log { OnOk result (made.new.log ≡ made.old.log ++ step_of.Start ng ∷ []) }
    ensures cuts { OnOk result (made.new.cuts ≡ made.old.cuts ++ cut ∷ []) }
{
    made.log.start(ng)?;
    made.cuts.push(cut)?;
    Ok(())
}

/// Adds the cut of a leaf, and gives the number of its step.
fn leaf(
    alloc: Global,
    case: &Case,
    best: Option<&Point>,
    made: &mut Derivation,
    path: &NoGood,
    cut: &Cut,
) -> Result<usize, AllocError>
    requires sound { IsSound case.now (option_copied best) made.old }
    requires named { NamesPairs case.now path.now }
    requires cut { IsLeafCut case.now (option_copied best) path.now cut.now }
    ensures { IfOk result (IsRefuted case.now (option_copied best.entry) path.now (shape.Leaf cut.now) made.old made.new) }
{
    let at = count(&made.log);
    let held = held_no_good(cut);
    let ng = held.copy(alloc)?;
    let copied = cut.copy(alloc)?;
    add_leaf(made, ng, copied)?;
    Ok(at)
}

fn two_hints(alloc: Global, first: usize, second: usize) -> Result<Sequence<u64>, AllocError>
    ensures { IfOk result (λ made. made ≡ first ∷ second ∷ []) }
{
    let mut made = Sequence::new(alloc);
    made.push(first as u64)?;
    made.push(second as u64)?;
    Ok(made)
}

/// The resolvent of the no-goods of two steps.
fn resolvent_of(
    alloc: Global,
    path: &NoGood,
    log: &Log,
    first: usize,
    second: usize,
) -> Result<NoGood, AllocError>
    requires first { first < length log.now }
    requires second { second < length log.now }
    ensures made { IfOk result (λ made. made ≡ resolvent path.now (ng_at log.now first) (ng_at log.now second)) }
    ensures ascending { IfOk result (λ made. IsTrue (pairs_ascend made)) }
{
    let u = choices_at(log, first);
    let v = choices_at(log, second);
    resolvent(alloc, path, u, v)
}

/// The choices of a step.
fn choices_at(log: &Log, at: usize) -> &[Choice]
    requires { at < length log.now }
    ensures { result.now ≡ ng_at log.now at }
{
    log.choices(at)
}

fn add_resolvent(made: &mut Derivation, ng: NoGood, hints: Sequence<u64>) -> Result<(), AllocError>
    requires { closes (no_goods made.old.log) ng hints ≡ true }
    ensures log { OnOk result (made.new.log ≡ made.old.log ++ step_of.Derived ng hints ∷ []) }
    ensures cuts { made.new.cuts ≡ made.old.cuts }
{
    made.log.derive(ng, hints)
}

/// Adds the resolvent of the steps of both sides, and gives the number of its step.
fn resolvent_step(
    alloc: Global,
    case: &Case,
    best: Option<&Point>,
    made: &mut Derivation,
    path: &NoGood,
    pair: u32,
    first: usize,
    second: usize,
) -> Result<usize, AllocError>
    requires sides { AreSides case.now (option_copied best) path.now pair made.old first second }
    requires has_first { is_assumed (ng_at made.old.log first) (choice_of pair side_of.A) ≡ true }
    requires has_second { is_assumed (ng_at made.old.log second) (choice_of pair side_of.B) ≡ true }
    ensures { IfOk result (IsResolved case.now (option_copied best.entry) path.now pair made.old first second made.new) }
{
    let at = count(&made.log);
    let ng = resolvent_of(alloc, path, &made.log, first, second)?;
    let hints = two_hints(alloc, first, second)?;
    add_resolvent(made, ng, hints)?;
    Ok(at)
}

/// Whether the no-good of a step has a choice.
fn step_has(log: &Log, at: usize, choice: Choice) -> bool
    requires { at < length log.now }
    ensures { result ≡ is_assumed (ng_at log.now at) choice }
{
    has(choices_at(log, at), choice)
}

/// The number of the step that stands for a split: that of a side whose no-good lacks its side of
/// the pair, or that of the resolvent, which is added.
fn resolved(
    alloc: Global,
    case: &Case,
    best: Option<&Point>,
    made: &mut Derivation,
    path: &NoGood,
    pair: u32,
    first: usize,
    second: usize,
) -> Result<usize, AllocError>
    requires { AreSides case.now (option_copied best) path.now pair made.old first second }
    ensures { IfOk result (IsResolved case.now (option_copied best.entry) path.now pair made.old first second made.new) }
{
    let side = Side::A;
    let has_first = step_has(&made.log, first, Choice { pair, side });
    if !has_first {
        return Ok(first);
    }
    let side = Side::B;
    let has_second = step_has(&made.log, second, Choice { pair, side });
    if !has_second {
        return Ok(second);
    }
    resolvent_step(alloc, case, best, made, path, pair, first, second)
}

/// Adds the steps of a tree at a path, and gives the number of the one that stands for it.
pub fn refuted(
    alloc: Global,
    case: &Case,
    best: Option<&Point>,
    made: &mut Derivation,
    path: &NoGood,
    tree: &Tree,
) -> Result<usize, AllocError>
    requires sound { IsSound case.now (option_copied best) made.old }
    requires named { NamesPairs case.now path.now }
    requires holds { Holds case.now (option_copied best) path.now tree.now }
    ensures { IfOk result (IsRefuted case.now (option_copied best.entry) path.now tree.now made.old made.new) }
{
    match tree {
        Tree::Leaf(cut) => leaf(alloc, case, best, made, path, cut),
        Tree::Split { pair, a, b } => {
            let pair = *pair;
            let side = Side::A;
            let first_path = extended(alloc, path, Choice { pair, side })?;
            let first = refuted(alloc, case, best, made, &first_path, a)?;
            let side = Side::B;
            let second_path = extended(alloc, path, Choice { pair, side })?;
            let second = refuted(alloc, case, best, made, &second_path, b)?;
            resolved(alloc, case, best, made, path, pair, first, second)
        },
    }
}
