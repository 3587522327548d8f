//! A derivation of the no-good without choices in fewer steps. Nothing rests on it: what it names
//! is tested before it is logged.
ghost use Rattle.std.specs.Prelude.{◌<◌, length};

use crate::propagation::{choices_or_none, is_marked, propagate};
use derivation::{Log, Step};
use std::alloc::{AllocError, Global};

/// A derivation of more steps is left as it is.
const MOST_PLANNED: usize = 4_000;

/// The number of the no-good without choices, which the log does not have.
const NO_STEP: usize = usize::MAX;

/// A step to derive: the number that its no-good has in the log, and its hints.
#[derive(Drop)]
pub(crate) struct Planned {
    pub(crate) step: usize,
    pub(crate) hints: Vec<u64>,
}

/// New hints for the step at this place.
#[derive(Drop)]
struct Change {
    place: usize,
    hints: Vec<u64>,
}

fn hints_of(log: &Log, at: usize) -> &[u64] {
    match log.steps().get(at) {
        Some(Step::Derived(_, hints)) => hints.as_slice(),
        _ => &[],
    }
}

fn mark_steps(marks: &mut Vec<bool>, hints: &[u64]) {
    for hint in hints {
        let at = *hint as usize;
        if at < marks.len() {
            marks[at] = true;
        }
    }
}

/// Marks of the steps that these hints reach.
fn reached(alloc: Global, log: &Log, hints: &[u64]) -> Result<Vec<bool>, AllocError> {
    let count = log.steps().len();
    let mut marks = vec![in alloc; false; count]?;
    mark_steps(&mut marks, hints);
    for at in (0..count).rev() {
        if is_marked(marks.as_slice(), at) {
            mark_steps(&mut marks, hints_of(log, at));
        }
    }
    Ok(marks)
}

fn plan_step(
    alloc: Global,
    plan: &mut Vec<Planned>,
    step: usize,
    hints: &[u64],
) -> Result<(), AllocError> {
    if !hints.is_empty() {
        let hints = Vec::from_slice(alloc, hints)?;
        plan.push(Planned { step, hints })?;
    }
    Ok(())
}

/// The derived steps that these hints reach, and last the no-good without choices by them.
fn plan_of(alloc: Global, log: &Log, hints: &[u64]) -> Result<Vec<Planned>, AllocError> {
    let marks = reached(alloc, log, hints)?;
    let mut plan = Vec::new(alloc);
    for at in 0..marks.len() {
        if marks[at] {
            plan_step(alloc, &mut plan, at, hints_of(log, at))?;
        }
    }
    plan_step(alloc, &mut plan, NO_STEP, hints)?;
    Ok(plan)
}

/// Hints of the user without this step, among the other ones of both. None where it does not
/// follow by them.
fn hints_without(
    alloc: Global,
    log: &Log,
    pairs: u32,
    dropped: &Planned,
    user: &Planned,
) -> Result<Option<Vec<u64>>, AllocError> {
    let mut hints = Vec::from_slice(alloc, dropped.hints.as_slice())?;
    for hint in user.hints.as_slice() {
        if *hint != dropped.step as u64 {
            hints.push(*hint)?;
        }
    }
    propagate(
        alloc,
        log,
        pairs,
        choices_or_none(log, user.step),
        hints.as_slice(),
    )
}

/// The changes to the later steps that let this one be dropped. None where one of them needs it.
fn changes_without(
    alloc: Global,
    log: &Log,
    pairs: u32,
    plan: &[Planned],
    at: usize,
) -> Result<Option<Vec<Change>>, AllocError>
    requires { at < length plan.now }
{
    let dropped = &plan[at];
    let mut changes = Vec::new(alloc);
    for place in at + 1..plan.len() {
        let user = &plan[place];
        if user.hints.as_slice().contains(&(dropped.step as u64)) {
            match hints_without(alloc, log, pairs, dropped, user)? {
                Some(hints) => changes.push(Change { place, hints })?,
                None => return Ok(None),
            }
        }
    }
    Ok(Some(changes))
}

fn make_change(plan: &mut Vec<Planned>, change: Change) {
    let Change { place, hints } = change;
    if place < plan.len() {
        let planned = &mut plan[place];
        planned.hints = hints;
    }
}

/// Drops the step, if it is not the last and each later one follows without it.
fn drop_at(
    alloc: Global,
    log: &Log,
    pairs: u32,
    plan: &mut Vec<Planned>,
    at: usize,
) -> Result<(), AllocError> {
    if at >= plan.len() || plan.len() - at == 1 {
        return Ok(());
    }
    let Some(changes) = changes_without(alloc, log, pairs, plan.as_slice(), at)? else {
        return Ok(());
    };
    for change in changes {
        make_change(plan, change);
    }
    if at < plan.len() {
        let _ = plan.remove(at);
    }
    Ok(())
}

/// A derivation of the no-good without choices, which follows by these hints, with fewer derived
/// steps than that by the log, in their order. None where there is none.
pub(crate) fn shorter(
    alloc: Global,
    log: &Log,
    pairs: u32,
    hints: &[u64],
) -> Result<Option<Vec<Planned>>, AllocError> {
    let mut plan = plan_of(alloc, log, hints)?;
    let count = plan.len();
    if count > MOST_PLANNED {
        return Ok(None);
    }
    for at in (0..count).rev() {
        drop_at(alloc, log, pairs, &mut plan, at)?;
    }
    if plan.len() == count {
        return Ok(None);
    }
    Ok(Some(plan))
}
