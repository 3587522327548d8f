//! Trying to drop choices.
ghost use Rattle.std.specs.Prelude.{◌≡◌, ◌<◌, ◌+◌, ◌≤◌, IfNone, IfOk, IfSome, length};
ghost use Rattle.std.specs.List.{remove};
ghost use Rattle.std.specs.Option.{option_copied};
ghost use Rattle.lpcc_case.specs.Pieces.{NamesPairs};
ghost use Rattle.lex_simplex.specs.Answers.{IsAnswer};
ghost use Rattle.reasons.specs.Reasons.{IsLimit};
ghost use Rattle.probe.specs.Answers.{IsCutWithin};
ghost use Rattle.shrink.specs.Trials.{AreFound, HaveReasons, IsSmaller, IsTrial};

use crate::known::KnownPoints;
use crate::trial::{Trial, of_answer};
use cuts::{Cut, Reason};
use lex_simplex::{LpAnswer, solve};
use lpcc_case::{Case, Point};
use nogoods::NoGood;
use probe::is_under;
use std::alloc::{AllocError, Global};

/// The choices without the one at a place.
pub fn without(alloc: Global, ng: &NoGood, k: usize) -> Result<NoGood, AllocError>
    requires { k < length ng.now }
    ensures { IfOk result (λ rest. rest ≡ remove ng.now k) }
{
    let mut choices = Vec::from_slice(alloc, ng.choices())?;
    choices.remove(k);
    let Some(rest) = NoGood::from_choices(alloc, choices.as_slice())? else {
        unreachable!();
    };
    Ok(rest)
}

/// Keeps the point of an answer, where it is below the limit.
fn remember(
    case: &Case,
    tight: &NoGood,
    limit: Option<&Point>,
    pivots: u64,
    answer: &LpAnswer,
    known: &mut KnownPoints,
) -> Result<(), AllocError>
    requires limit { IsLimit case.now (option_copied limit) }
    requires answer { IsAnswer case.now tight.now pivots answer.now }
{
    match answer {
        LpAnswer::Optimum(point, _) | LpAnswer::Unbounded(point, _) => {
            if is_under(case, point, limit) {
                known.keep(case, point)?;
            }
            Ok(())
        },
        _ => Ok(()),
    }
}

/// What the program of these choices shows: by a known point, or else by a solve.
fn try_program(
    alloc: Global,
    case: &Case,
    tight: &NoGood,
    limit: Option<&Point>,
    pivots: u64,
    known: &mut KnownPoints,
) -> Result<Trial, AllocError>
    requires named { NamesPairs case.now tight.now }
    requires limit { IsLimit case.now (option_copied limit) }
    ensures { IfOk result (IsTrial case.now pivots (option_copied limit.entry) tight.now) }
{
    if let Some(point) = known.point_below(case, tight, limit)? {
        return Ok(Trial::Kept(Reason::Below(point)));
    }
    let answer = solve(alloc, case, tight, pivots)?;
    remember(case, tight, limit, pivots, &answer, known)?;
    Ok(of_answer(case, tight, limit, pivots, answer))
}

/// Tries to drop the choice at a place, where it has no reason yet. The result is a cut that does
/// without it; where there is none, the choice has a reason now.
fn try_choice(
    alloc: Global,
    case: &Case,
    ng: &NoGood,
    k: usize,
    limit: Option<&Point>,
    pivots: u64,
    found: &mut Vec<Option<Reason>>,
    known: &mut KnownPoints,
) -> Result<Option<Cut>, AllocError>
    requires place { k < length ng.now }
    requires named { NamesPairs case.now ng.now }
    requires limit { IsLimit case.now (option_copied limit) }
    requires found { AreFound case.now pivots (option_copied limit) ng.now found.old.items }
    requires before { HaveReasons k found.old.items }
    ensures found { AreFound case.now pivots (option_copied limit.entry) ng.now found.new.items }
    ensures smaller { IfOk result (λ made. IfSome made (IsCutWithin case.now (option_copied limit.entry) (remove ng.now k))) }
    ensures needed { IfOk result (λ made. IfNone made (HaveReasons (k + 1) found.new.items)) }
{
    if found[k].is_some() {
        return Ok(None);
    }
    let rest = without(alloc, ng, k)?;
    match try_program(alloc, case, &rest, limit, pivots, known)? {
        Trial::Dropped(cut) => Ok(Some(cut)),
        Trial::Kept(reason) => {
            found[k] = Some(reason);
            Ok(None)
        },
    }
}

/// Tries the choices that have no reason yet, in their order, until one can be dropped. The result is
/// a cut that does without a choice; where there is none, all have a reason now.
pub fn try_all(
    alloc: Global,
    case: &Case,
    ng: &NoGood,
    limit: Option<&Point>,
    pivots: u64,
    found: &mut Vec<Option<Reason>>,
    known: &mut KnownPoints,
) -> Result<Option<Cut>, AllocError>
    requires named { NamesPairs case.now ng.now }
    requires limit { IsLimit case.now (option_copied limit) }
    requires found { AreFound case.now pivots (option_copied limit) ng.now found.old.items }
    ensures found { AreFound case.now pivots (option_copied limit.entry) ng.now found.new.items }
    ensures smaller { IfOk result (λ made. IfSome made (IsSmaller case.now (option_copied limit.entry) ng.now)) }
    ensures needed { IfOk result (λ made. IfNone made (HaveReasons (length ng.now) found.new.items)) }
{
    for k in 0..ng.choices().len() {
        if let Some(cut) = try_choice(alloc, case, ng, k, limit, pivots, found, known)? {
            return Ok(Some(cut));
        }
    }
    Ok(None)
}
