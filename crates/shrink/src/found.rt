//! The reasons that are found so far, one or none for each choice of a no-good.
ghost use Rattle.std.specs.Prelude.{◌≡◌, ◌<◌, ℕ, List, Some, Option, IfOk, IfSome, IsTrue, length, slice_get};
ghost use Rattle.nogoods.specs.declared.choice.Choice.{Choice};
ghost use Rattle.nogoods.specs.Choices.{pairs_ascend};
ghost use Rattle.lpcc_case.specs.Instance.{Instance};
ghost use Rattle.lpcc_case.specs.declared.point.Point.{Point};
ghost use Rattle.cuts.specs.declared.reason.Reason.{Reason};
ghost use Rattle.shrink.specs.Trials.{AreCarried, AreFound, AreKept, HaveReasons, IsLasting};

use cuts::Reason;
use lp_base::Sequence;
use nogoods::{Choice, NoGood};
use std::alloc::{AllocError, Global};

/// No reason for any of the choices.
pub fn no_reasons(alloc: Global, ng: &NoGood) -> Result<Vec<Option<Reason>>, AllocError>
    ensures { (a : Instance) (budget : ℕ) (limit : Option Point) → IfOk result (λ found. AreFound a budget limit ng.now found.items) }
{
    let mut found = Vec::new(alloc);
    for _ in 0..ng.choices().len() {
        found.push(None)?;
    }
    Ok(found)
}

/// The place of a choice. None where the no-good does not have it.
pub fn place_of(ng: &NoGood, choice: Choice) -> Option<usize>
    ensures { IfSome result (λ p. slice_get ng.now p ≡ Some choice) }
{
    ng.choices().iter().position(|one| *one == choice)
}

/// The reason, where it has a point, so that it lasts where choices are dropped.
fn lasting(reason: Option<Reason>) -> Option<Reason>
    ensures { IfSome result (λ r. IsLasting r × (reason ≡ Some r)) }
{
    match &reason {
        Some(Reason::Below(_)) => reason,
        Some(Reason::Unbounded(_, _)) => reason,
        _ => None,
    }
}

/// Takes the reason of a choice, where it lasts.
fn take_lasting(old: &NoGood, found: &mut Vec<Option<Reason>>, choice: Choice) -> Option<Reason>
    requires { length found.old.items ≡ length old.now }
    ensures origin { IfSome result (λ r. IsLasting r × (p : ℕ) × (slice_get old.now p ≡ Some choice) × (slice_get found.old.items p ≡ Some (Some r))) }
    ensures rest { (k : ℕ) (r : Reason) → slice_get found.new.items k ≡ Some (Some r) → slice_get found.old.items k ≡ Some (Some r) }
    ensures size { length found.new.items ≡ length found.old.items }
{
    let place = place_of(old, choice)?;
    lasting(found[place].take())
}

/// The reasons that last, for choices that are left of the old ones.
pub fn carried(
    alloc: Global,
    old: &NoGood,
    found: Vec<Option<Reason>>,
    new: &NoGood,
) -> Result<Vec<Option<Reason>>, AllocError>
    requires { length found.items ≡ length old.now }
    ensures carried { IfOk result (λ made. AreCarried old.now new.now found.items made.items) }
    ensures ascending { IsTrue (pairs_ascend new.now) }
{
    let mut found = found;
    let mut made = Vec::new(alloc);
    let choices = new.choices();
    for choice in choices {
        let reason = take_lasting(old, &mut found, *choice);
        made.push(reason)?;
    }
    Ok(made)
}

/// Each choice with its reason.
pub fn kept_of(
    alloc: Global,
    ng: &NoGood,
    found: Vec<Option<Reason>>,
) -> Result<Sequence<(Choice, Reason)>, AllocError>
    requires size { length found.items ≡ length ng.now }
    requires all { HaveReasons (length ng.now) found.items }
    ensures { IfOk result (λ kept. AreKept ng.now found.items kept) }
{
    let choices = ng.choices();
    let mut found = found;
    let mut kept = Sequence::new(alloc);
    for k in 0..choices.len() {
        let Some(reason) = found[k].take() else {
            unreachable!();
        };
        kept.push((choices[k], reason))?;
    }
    Ok(kept)
}
