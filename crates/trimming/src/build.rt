//! The log with the steps that are reached alone.
ghost use Rattle.std.specs.Prelude.{◌≡◌, ◌<◌, ◌≤◌, ◌∷◌, ◌++◌, ◌+◌, ℕ, All, Contains, IfOk, IsTrue, OnOk, [], map, take, length, slice_index_or};
ghost use Rattle.lp_base.specs.Ascending.{ascends_by};
ghost use Rattle.derivation.specs.Logs.{Follows, no_goods};
ghost use Rattle.trimming.specs.Marks.{Numbers};
ghost use Rattle.trimming.specs.Trimmed.{AreReached, IsTrimmed, kept_steps, step_at, with_hints};

use crate::reach::reached_steps;
use derivation::{Log, Step};
use lp_base::Sequence;
use std::alloc::{AllocError, Global};

fn number_at(numbers: &[u64], hint: u64) -> u64
    ensures { result ≡ slice_index_or numbers.now hint 0 }
{
    match numbers.get(hint as usize) {
        Some(number) => *number,
        None => 0,
    }
}

/// The hints, renumbered.
fn renumbered(alloc: Global, numbers: &[u64], hints: &[u64]) -> Result<Sequence<u64>, AllocError>
    ensures { IfOk result (λ made. made ≡ map (λ h. slice_index_or numbers.now h 0) hints.now) }
{
    let mut made = Sequence::new(alloc);
    for hint in hints {
        made.push(number_at(numbers, *hint))?;
    }
    Ok(made)
}

/// Adds a step of the log, its hints renumbered.
fn add(
    alloc: Global,
    made: &mut Log,
    log: &Log,
    at: usize,
    numbers: &[u64],
) -> Result<(), AllocError>
    requires within { at < length log.now }
    requires follows { Follows (no_goods made.old) (with_hints (λ h. slice_index_or numbers.now h 0) (step_at log.now at)) }
    ensures { OnOk result (made.new ≡ made.old ++ with_hints (λ h. slice_index_or numbers.now h 0) (step_at log.now at) ∷ []) }
{
    match &log.steps()[at] {
        Step::Start(ng) => made.start(ng.copy(alloc)?),
        Step::Derived(ng, hints) => {
            let ng = ng.copy(alloc)?;
            let hints = renumbered(alloc, numbers, hints.as_slice())?;
            made.derive(ng, hints)
        }
    }
}

/// Adds the reached step of this place.
fn add_place(
    alloc: Global,
    made: &mut Log,
    log: &Log,
    places: &[u64],
    numbers: &[u64],
    place: usize,
) -> Result<(), AllocError>
    requires reached { AreReached log.now places.now }
    requires numbered { Numbers places.now numbers.now }
    requires within { place < length places.now }
    requires so_far { made.old ≡ kept_steps log.now places.now (take place places.now) }
    ensures { OnOk result (made.new ≡ kept_steps log.now places.now (take (place + 1) places.now)) }
{
    let _ = log.steps();
    add(alloc, made, log, places[place] as usize, numbers)
}

/// For each of the places its own place in their list.
fn numbers_of(alloc: Global, places: &[u64], count: usize) -> Result<Vec<u64>, AllocError>
    requires low { All (λ k. k < count) places.now }
    requires ascending { IsTrue (ascends_by (λ k. k) places.now) }
    ensures { IfOk result (λ numbers. (j : ℕ) → j < length places.now → slice_index_or numbers.items (slice_index_or places.now j 0) 0 ≡ j) }
{
    let mut numbers = vec![in alloc; 0; count]?;
    for place in 0..places.len() {
        numbers[places[place] as usize] = place as u64;
    }
    Ok(numbers)
}

/// The steps that the first empty step reaches through hints and no others, in their order, with
/// the hints renumbered.
pub fn trim(alloc: Global, log: &Log) -> Result<Log, AllocError>
    requires { Contains (no_goods log.now) [] }
    ensures trimmed { IfOk result (IsTrimmed log.now) }
    ensures empty { IfOk result (λ made. Contains (no_goods made) []) }
{
    let places = reached_steps(alloc, log)?;
    let places = places.as_slice();
    let numbers = numbers_of(alloc, places, log.steps().len())?;
    let mut made = Log::create(alloc);
    for place in 0..places.len() {
        add_place(alloc, &mut made, log, places, numbers.as_slice(), place)?;
    }
    Ok(made)
}
