//! Shrinking of cuts.
ghost use Rattle.std.specs.Prelude.{IfOk};
ghost use Rattle.std.specs.Option.{option_copied};
ghost use Rattle.cuts.specs.Cuts.{Passes};
ghost use Rattle.reasons.specs.Reasons.{IsActiveAgainst, IsLimit};
ghost use Rattle.shrink.specs.Shrinking.{IsShrunk};

use crate::found::{carried, kept_of, no_reasons};
use crate::probing::shrink_by_probe;
use crate::trying::try_all;
use crate::{KnownPoints, Shrunk};
use cuts::Cut;
use lpcc_case::{Case, Point};
use probe::Probe;
use std::alloc::{AllocError, Global};

/// Drops choices of a cut for as long as the program of the others is infeasible, or bounded by the
/// limit: its cut then takes the place of the old one. Each time the first choice is tried that has
/// no reason yet. A choice that is kept since the program of the others ended wide or spent its
/// pivots is tried again after each later drop. `pivots` is the most pivots in a stage of a solve.
///
/// # Errors
///
/// Want of memory alone.
pub fn shrink(
    alloc: Global,
    case: &Case,
    cut: Cut,
    limit: Option<&Point>,
    pivots: u64,
) -> Result<Shrunk, AllocError>
    requires passes { Passes case.now cut }
    requires limit { IsLimit case.now (option_copied limit) }
    requires active { IsActiveAgainst cut (option_copied limit) }
    ensures { IfOk result (IsShrunk case.now pivots (option_copied limit.entry) cut) }
{
    let mut known = KnownPoints::new(alloc);
    shrink_with(alloc, case, cut, limit, pivots, &mut known)
}

/// Shrinks as `shrink` does, and takes known points as reasons where they show that a choice is
/// needed, so that no program is solved for it. Points that are not below the limit are dropped from
/// the store, and the points of new solves are kept in it. The cut is the same whatever is known; the
/// points of the reasons may differ.
///
/// # Errors
///
/// Want of memory alone.
pub fn shrink_with(
    alloc: Global,
    case: &Case,
    cut: Cut,
    limit: Option<&Point>,
    pivots: u64,
    known: &mut KnownPoints,
) -> Result<Shrunk, AllocError>
    requires passes { Passes case.now cut }
    requires limit { IsLimit case.now (option_copied limit) }
    requires active { IsActiveAgainst cut (option_copied limit) }
    ensures { IfOk result (IsShrunk case.now pivots (option_copied limit.entry) cut) }
{
    if let Some(limit) = limit {
        known.keep_lower(limit);
    }
    let mut cut = cut;
    let mut found = no_reasons(alloc, cut.no_good())?;
    loop {
        let ng = cut.no_good();
        let Some(smaller) = try_all(alloc, case, ng, limit, pivots, &mut found, known)? else {
            let kept = kept_of(alloc, ng, found)?;
            return Ok(Shrunk { cut, kept });
        };
        found = carried(alloc, ng, found, smaller.no_good())?;
        cut = smaller;
    }
}

/// Shrinks as `shrink_with` does, and asks the probe for each choice for which no point is known,
/// before a program is solved for it. The cut that is left may be another one.
///
/// # Errors
///
/// Want of memory alone.
pub fn shrink_with_probe(
    alloc: Global,
    case: &Case,
    cut: Cut,
    limit: Option<&Point>,
    pivots: u64,
    known: &mut KnownPoints,
    probe: &mut Probe,
) -> Result<Shrunk, AllocError>
    requires passes { Passes case.now cut }
    requires limit { IsLimit case.now (option_copied limit) }
    requires active { IsActiveAgainst cut (option_copied limit) }
    ensures { IfOk result (IsShrunk case.now pivots (option_copied limit.entry) cut) }
{
    if let Some(limit) = limit {
        known.keep_lower(limit);
    }
    let smaller = shrink_by_probe(alloc, case, cut, limit, known, probe)?;
    shrink_with(alloc, case, smaller, limit, pivots, known)
}
