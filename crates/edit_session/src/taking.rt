//! Kept cuts are absorbed when they are active against the best point.
ghost use Rattle.std.specs.Prelude.{◌≡◌, ◌↔◌, [], All, IsTrue, None, OnOk};
ghost use Rattle.cuts.specs.Cuts.{Passes};
ghost use Rattle.reasons.specs.Reasons.{IsActiveAgainst};
ghost use Rattle.play.specs.Parts.{start};
ghost use Rattle.desk_part.specs.DeskParts.{standing};
ghost use Rattle.settling.specs.Known.{IsTrueKnowledge};
ghost use Rattle.edit_session.specs.Rounds.{AreInactive, GoesOn, IsReady, IsSameButAbsorbed, IsTakenUp};

use cuts::Cut;
use desk_part::RecordedPart;
use lpcc_case::Case;
use reasons::is_active;
use settling::Knowledge;
use std::alloc::{AllocError, Global};

/// Whether a cut that passes is active against the best point of the desk.
fn is_active_now(case: &Case, desk: &RecordedPart, cut: &Cut) -> bool
    requires of { desk.now.case_of ≡ case.now }
    requires passes { Passes case.now cut.now }
    ensures { IsTrue result ↔ IsActiveAgainst cut.now desk.now.part.best }
{
    is_active(case, cut, desk.best())
}

/// Absorbs the cut where it is active; else it waits behind the others.
fn take_up(
    alloc: Global,
    case: &Case,
    desk: &mut RecordedPart,
    cut: Cut,
    waiting: &mut Vec<Cut>,
) -> Result<(), AllocError>
    requires of { desk.old.case_of ≡ case.now }
    requires unconcluded { desk.old.part.verdict ≡ None }
    requires passes { Passes case.now cut }
    ensures { OnOk result (IsTakenUp cut desk.old desk.new waiting.old.items waiting.new.items) }
{
    if is_active_now(case, desk, &cut) {
        return desk.absorb(alloc, cut);
    }
    waiting.push(cut)?;
    Ok(())
}

/// Absorbs those of the waiting cuts that are active; the others wait on.
fn take_up_waiting(
    alloc: Global,
    case: &Case,
    desk: &mut RecordedPart,
    waiting: &mut Vec<Cut>,
) -> Result<(), AllocError>
    requires of { desk.old.case_of ≡ case.now }
    requires unconcluded { desk.old.part.verdict ≡ None }
    requires passes { All (Passes case.now) waiting.old.items }
    ensures same { OnOk result (IsSameButAbsorbed desk.old desk.new) }
    ensures passes { OnOk result (All (Passes case.now) waiting.new.items) }
    ensures inactive { OnOk result (AreInactive desk.new.part.best waiting.new.items) }
    ensures run { OnOk result (GoesOn case.now desk.old waiting.old.items desk.new waiting.new.items) }
{
    let mut rest = Vec::new(alloc);
    while let Some(cut) = waiting.pop() {
        take_up(alloc, case, desk, cut, &mut rest)?;
    }
    *waiting = rest;
    Ok(())
}

/// Absorbs those of the waiting cuts that are active, while there is no verdict.
pub fn absorb_active(
    alloc: Global,
    case: &Case,
    desk: &mut RecordedPart,
    waiting: &mut Vec<Cut>,
) -> Result<(), AllocError>
    requires of { desk.old.case_of ≡ case.now }
    requires passes { All (Passes case.now) waiting.old.items }
    ensures same { OnOk result (IsSameButAbsorbed desk.old desk.new) }
    ensures passes { OnOk result (All (Passes case.now) waiting.new.items) }
    ensures inactive { OnOk result (desk.new.part.verdict ≡ None → AreInactive desk.new.part.best waiting.new.items) }
    ensures run { OnOk result (GoesOn case.now desk.old waiting.old.items desk.new waiting.new.items) }
{
    if desk.is_concluded() {
        return Ok(());
    }
    take_up_waiting(alloc, case, desk, waiting)
}

/// Absorbs those of the kept cuts that are active on a new desk, which are the ray cuts. Copies of
/// the others wait.
pub fn absorb_rays(
    alloc: Global,
    case: &Case,
    kept: &[Cut],
    desk: &mut RecordedPart,
    waiting: &mut Vec<Cut>,
) -> Result<(), AllocError>
    requires new_desk { desk.old ≡ standing case.now desk.old.options start }
    requires none_waits { waiting.old.items ≡ [] }
    requires passes { All (Passes case.now) kept.now }
    ensures same { OnOk result (IsSameButAbsorbed desk.old desk.new) }
    ensures passes { OnOk result (All (Passes case.now) waiting.new.items) }
    ensures ready { OnOk result (IsReady case.now desk.old.options kept.now desk.new waiting.new.items []) }
{
    for cut in kept {
        take_up(alloc, case, desk, cut.copy(alloc)?, waiting)?;
    }
    Ok(())
}

/// Takes in copies of the kept cuts as what is known of the case.
pub fn learn_all(
    alloc: Global,
    case: &Case,
    kept: &[Cut],
    known: &mut Knowledge,
) -> Result<(), AllocError>
    requires known { IsTrueKnowledge case.now known.old }
    requires passes { All (Passes case.now) kept.now }
    ensures known { IsTrueKnowledge case.now known.new }
{
    for cut in kept {
        known.learn(case, cut.copy(alloc)?)?;
    }
    Ok(())
}
