//! Which steps the first empty step reaches through hints.
ghost use Rattle.std.specs.Prelude.{◌≡◌, ◌<◌, ◌≤◌, ◌+◌, ◌⊎◌, ℕ, All, Contains, IfOk, OnOk, [], true, false, length, slice_index_or};
ghost use Rattle.derivation.specs.Logs.{IsLog, no_goods};
ghost use Rattle.trimming.specs.Marks.{AreSound, HintsMarked, IsClosedFrom, marked, with_number};
ghost use Rattle.trimming.specs.Trimmed.{AreReached, hints_of, step_at};

use derivation::{Log, NoGoods, Step};
use lp_base::Sequence;
use std::alloc::{AllocError, Global};

/// The hints of a step.
fn hints_at(log: &Log, at: usize) -> &[u64]
    requires { at < length log.now }
    ensures { result.now ≡ hints_of (step_at log.now at) }
{
    match &log.steps()[at] {
        Step::Start(_) => &[],
        Step::Derived(_, hints) => hints.as_slice(),
    }
}

/// The first step without choices.
fn first_empty(log: &Log) -> usize
    requires { Contains (no_goods log.now) [] }
    ensures within { result < length (no_goods log.now) }
    ensures empty { slice_index_or (no_goods log.now) result [] ≡ [] }
    ensures first { (k : ℕ) → k < result → ¬ (slice_index_or (no_goods log.now) k [] ≡ []) }
    ensures is_log { IsLog log.now }
{
    let count = log.steps().len();
    for at in 0..count {
        if log.choices(at).is_empty() {
            return at;
        }
    }
    0
}

/// Marks a step, if its number is below this one.
fn mark_hint(marks: &mut Vec<bool>, below: usize, hint: u64)
    requires { below ≤ length marks.old.items }
    ensures size { length marks.new.items ≡ length marks.old.items }
    ensures marked { hint < below → slice_index_or marks.new.items hint false ≡ true }
    ensures kept { (j : ℕ) → slice_index_or marks.old.items j false ≡ true → slice_index_or marks.new.items j false ≡ true }
    ensures others { (j : ℕ) → below ≤ j → slice_index_or marks.new.items j false ≡ slice_index_or marks.old.items j false }
    ensures only { (j : ℕ) → slice_index_or marks.new.items j false ≡ true → (slice_index_or marks.old.items j false ≡ true) ⊎ (j ≡ hint) }
{
    let at = hint as usize;
    if at < below {
        marks[at] = true;
    }
}

fn mark_hints(marks: &mut Vec<bool>, below: usize, hints: &[u64])
    requires { below ≤ length marks.old.items }
    ensures size { length marks.new.items ≡ length marks.old.items }
    ensures marked { HintsMarked marks.new.items below hints.now }
    ensures kept { (j : ℕ) → slice_index_or marks.old.items j false ≡ true → slice_index_or marks.new.items j false ≡ true }
    ensures others { (j : ℕ) → below ≤ j → slice_index_or marks.new.items j false ≡ slice_index_or marks.old.items j false }
    ensures only { (j : ℕ) → slice_index_or marks.new.items j false ≡ true → (slice_index_or marks.old.items j false ≡ true) ⊎ Contains hints.now j }
{
    for hint in hints {
        mark_hint(marks, below, *hint);
    }
}

/// Marks the hints of a step, if it is marked.
fn close_at(marks: &mut Vec<bool>, log: &Log, at: usize, last: usize)
    requires within { at < length log.now }
    requires room { at < length marks.old.items }
    requires closed { IsClosedFrom (at + 1) log.now marks.old.items }
    requires sound { AreSound log.now last marks.old.items }
    ensures size { length marks.new.items ≡ length marks.old.items }
    ensures closed { IsClosedFrom at log.now marks.new.items }
    ensures sound { AreSound log.now last marks.new.items }
    ensures kept { (j : ℕ) → slice_index_or marks.old.items j false ≡ true → slice_index_or marks.new.items j false ≡ true }
{
    if marks[at] {
        mark_hints(marks, at, hints_at(log, at));
    }
}

/// Marks of the steps up to this one that it reaches.
fn reached(alloc: Global, log: &Log, last: usize) -> Result<Vec<bool>, AllocError>
    requires { last < length log.now }
    ensures last { IfOk result (λ marks. slice_index_or marks.items last false ≡ true) }
    ensures closed { IfOk result (λ marks. IsClosedFrom 0 log.now marks.items) }
    ensures sound { IfOk result (λ marks. AreSound log.now last marks.items) }
{
    let mut marks = vec![in alloc; false; last]?;
    marks.push(true)?;
    let mut at = last + 1;
    while at > 0 {
        at -= 1;
        close_at(&mut marks, log, at, last);
    }
    Ok(marks)
}

fn push_if(made: &mut Sequence<u64>, marked: bool, at: usize) -> Result<(), AllocError>
    ensures { OnOk result (made.new ≡ with_number made.old marked at) }
{
    if marked {
        made.push(at as u64)?;
    }
    Ok(())
}

/// The numbers of the marked steps.
fn numbers_of(alloc: Global, marks: &[bool]) -> Result<Sequence<u64>, AllocError>
    ensures { IfOk result (λ made. made ≡ marked 0 marks.now) }
{
    let mut made = Sequence::new(alloc);
    for at in 0..marks.len() {
        push_if(&mut made, marks[at], at)?;
    }
    Ok(made)
}

/// The numbers, in their order, of the steps that the first empty step reaches through hints, its
/// own among them.
pub fn reached_steps(alloc: Global, log: &Log) -> Result<Sequence<u64>, AllocError>
    requires { Contains (no_goods log.now) [] }
    ensures { IfOk result (AreReached log.now) }
{
    let last = first_empty(log);
    let marks = reached(alloc, log, last)?;
    let numbers = numbers_of(alloc, marks.as_slice())?;
    Ok(numbers)
}
