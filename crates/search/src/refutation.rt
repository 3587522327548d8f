//! The last step of a refutation.
ghost use Rattle.std.specs.Prelude.{◌≡◌, ◌≤◌, All, Contains, IsTrue, OnOk, [], true};
ghost use Rattle.derivation.specs.HintRuns.{NamesBelow, closes};
ghost use Rattle.derivation.specs.Logs.{no_goods};
ghost use Rattle.search.specs.Growth.{Grown};

use crate::plan::{Planned, shorter};
use crate::propagation::choices_or_none;
use crate::resolve::{add, no_good};
use derivation::{Log, NoGoods, follows};
use lp_base::Sequence;
use lpcc_case::MOST_PAIRS;
use nogoods::NoGood;
use std::alloc::{AllocError, Global};

fn set_number(numbers: &mut Vec<u64>, step: usize, number: usize) {
    if step < numbers.len() {
        numbers[step] = number as u64;
    }
}

fn renumbered(alloc: Global, numbers: &[u64], hints: &[u64]) -> Result<Sequence<u64>, AllocError> {
    let mut made = Sequence::new(alloc);
    for hint in hints {
        match numbers.get(*hint as usize) {
            Some(number) => made.push(*number)?,
            None => made.push(*hint)?,
        }
    }
    Ok(made)
}

/// Each number below the count.
fn numbers_below(alloc: Global, count: usize) -> Result<Vec<u64>, AllocError> {
    let mut made = Vec::with_capacity(alloc, count)?;
    for number in 0..count {
        made.push(number as u64)?;
    }
    Ok(made)
}

/// Adds the step, if it follows.
fn add_if_follows(
    log: &mut Log,
    pairs: u32,
    ng: NoGood,
    hints: Sequence<u64>,
) -> Result<(), AllocError>
    requires few { pairs ≤ MOST_PAIRS }
    requires named { All (NamesBelow pairs) (no_goods log.old) }
    requires below { NamesBelow pairs ng }
    ensures grown { Grown pairs log.old log.new }
{
    if follows(log, &ng, hints.as_slice()) {
        return add(log, pairs, ng, hints);
    }
    Ok(())
}

/// Adds a planned step, its hints renumbered, if it follows.
fn add_planned(
    alloc: Global,
    log: &mut Log,
    pairs: u32,
    numbers: &[u64],
    planned: &Planned,
) -> Result<(), AllocError>
    requires few { pairs ≤ MOST_PAIRS }
    requires named { All (NamesBelow pairs) (no_goods log.old) }
    ensures grown { Grown pairs log.old log.new }
{
    let ng = no_good(alloc, choices_or_none(log, planned.step))?;
    let hints = renumbered(alloc, numbers, planned.hints.as_slice())?;
    add_if_follows(log, pairs, ng, hints)
}

/// Adds the planned steps that follow.
fn add_plan(alloc: Global, log: &mut Log, pairs: u32, plan: &[Planned]) -> Result<(), AllocError>
    requires few { pairs ≤ MOST_PAIRS }
    requires named { All (NamesBelow pairs) (no_goods log.old) }
    ensures grown { Grown pairs log.old log.new }
{
    let mut numbers = numbers_below(alloc, log.steps().len())?;
    for planned in plan {
        let at = log.steps().len();
        add_planned(alloc, log, pairs, numbers.as_slice(), planned)?;
        set_number(&mut numbers, planned.step, at);
    }
    Ok(())
}

/// Adds steps by which the no-good without choices, which follows by these hints, is derived in
/// fewer steps, if such are found.
fn add_shorter(alloc: Global, log: &mut Log, pairs: u32, hints: &[u64]) -> Result<(), AllocError>
    requires few { pairs ≤ MOST_PAIRS }
    requires named { All (NamesBelow pairs) (no_goods log.old) }
    ensures grown { Grown pairs log.old log.new }
{
    match shorter(alloc, log, pairs, hints)? {
        Some(plan) => add_plan(alloc, log, pairs, plan.as_slice()),
        None => Ok(()),
    }
}

/// Whether the last step has no choices.
fn is_refuted(log: &Log) -> bool
    ensures { IsTrue result → Contains (no_goods log.now) [] }
{
    let count = log.count();
    count > 0 && log.choices(count - 1).is_empty()
}

/// Adds the no-good without choices, which follows by these hints, by steps that are added before
/// it where it takes fewer of them.
pub(crate) fn conclude(
    alloc: Global,
    log: &mut Log,
    pairs: u32,
    hints: Vec<u64>,
) -> Result<(), AllocError>
    requires few { pairs ≤ MOST_PAIRS }
    requires named { All (NamesBelow pairs) (no_goods log.old) }
    requires follows { closes (no_goods log.old) [] hints.items ≡ true }
    ensures grown { Grown pairs log.old log.new }
    ensures empty { OnOk result (Contains (no_goods log.new) []) }
{
    add_shorter(alloc, log, pairs, hints.as_slice())?;
    if is_refuted(log) {
        return Ok(());
    }
    add(log, pairs, no_good(alloc, &[])?, Sequence::of_vec(hints))
}
