//! Shrinking by known points and by the probe, without a walk.
ghost use Rattle.std.specs.Prelude.{IfOk};
ghost use Rattle.std.specs.Option.{option_copied};
ghost use Rattle.cuts.specs.Cuts.{Passes, no_good_of};
ghost use Rattle.reasons.specs.Reasons.{IsActiveAgainst, IsLimit};
ghost use Rattle.probe.specs.Answers.{IsCutWithin};

use crate::KnownPoints;
use crate::found::place_of;
use crate::trying::without;
use cuts::Cut;
use lpcc_case::{Case, Point};
use nogoods::Choice;
use probe::{Answer, Probe};
use std::alloc::{AllocError, Global};

/// A cut with choices among those of this one, and without the choice where a cut is found that does
/// without it.
fn try_without(
    alloc: Global,
    case: &Case,
    cut: Cut,
    choice: Choice,
    limit: Option<&Point>,
    known: &mut KnownPoints,
    probe: &mut Probe,
) -> Result<Cut, AllocError>
    requires passes { Passes case.now cut }
    requires limit { IsLimit case.now (option_copied limit) }
    requires active { IsActiveAgainst cut (option_copied limit) }
    ensures { IfOk result (IsCutWithin case.now (option_copied limit.entry) (no_good_of cut)) }
{
    let ng = cut.no_good();
    let Some(k) = place_of(ng, choice) else {
        return Ok(cut);
    };
    let others = without(alloc, ng, k)?;
    if known.may_lie_in(case, &others)? {
        return Ok(cut);
    }
    match probe.ask(case, &others, limit)? {
        Answer::Cut(smaller) => Ok(smaller),
        Answer::Point(point) => {
            known.keep(case, &point)?;
            Ok(cut)
        },
        Answer::Unknown => Ok(cut),
    }
}

/// Drops choices of a cut, each of which is tried once, in order. A choice stays where a point is
/// known, or is found by the probe, that shows that it is needed, and where the probe has no answer.
/// The points that are found are kept in the store.
///
/// # Errors
///
/// Want of memory alone.
pub fn shrink_by_probe(
    alloc: Global,
    case: &Case,
    cut: Cut,
    limit: Option<&Point>,
    known: &mut KnownPoints,
    probe: &mut Probe,
) -> Result<Cut, AllocError>
    requires passes { Passes case.now cut }
    requires limit { IsLimit case.now (option_copied limit) }
    requires active { IsActiveAgainst cut (option_copied limit) }
    ensures { IfOk result (IsCutWithin case.now (option_copied limit.entry) (no_good_of cut)) }
{
    let choices = Vec::from_slice(alloc, cut.no_good().choices())?;
    let mut made = cut;
    for choice in choices.as_slice() {
        made = try_without(alloc, case, made, *choice, limit, known, probe)?;
    }
    Ok(made)
}
