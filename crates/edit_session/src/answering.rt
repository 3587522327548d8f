//! A whole run over kept cuts, with one worker.
ghost use Rattle.std.specs.Prelude.{◌≡◌, [], All, IfOk, OnOk};
ghost use Rattle.lpcc_case.specs.Cases.{IsCase};
ghost use Rattle.cuts.specs.Cuts.{Passes};
ghost use Rattle.play.specs.Parts.{start};
ghost use Rattle.desk_part.specs.DeskParts.{standing};
ghost use Rattle.settling.specs.Known.{IsTrueKnowledge};
ghost use Rattle.engine.specs.Turns.{IsWaiting};
ghost use Rattle.edit_session.specs.Answers.{IsAnswer};
ghost use Rattle.edit_session.specs.Rounds.{IsPlayed, IsReady};

use crate::taking::{absorb_rays, learn_all};
use crate::turn::turn;
use cuts::Cut;
use desk_part::RecordedPart;
use lpcc_case::Case;
use play::{Ending, Options};
use settling::Knowledge;
use std::alloc::{AllocError, Global};

/// Takes turns until the desk is done.
fn take_turns(
    alloc: Global,
    case: &Case,
    options: &Options,
    kept: &[Cut],
    desk: &mut RecordedPart,
    known: &mut Knowledge,
    waiting: &mut Vec<Cut>,
    settled: &mut Vec<Cut>,
) -> Result<(), AllocError>
    requires one { options.now.workers ≡ 1 }
    requires waits { IsWaiting case.now options.now desk.old }
    requires known { IsTrueKnowledge case.now known.old }
    requires waiting { All (Passes case.now) waiting.old.items }
    requires settled { All (Passes case.now) settled.old.items }
    requires ready { IsReady case.now options.now kept.now desk.old waiting.old.items settled.old.items }
    ensures settled { OnOk result (All (Passes case.now) settled.new.items) }
    ensures played { OnOk result (IsPlayed case.now options.now kept.now desk.new settled.new.items) }
{
    'turns: loop {
        if !turn(alloc, case, options, desk, known, waiting, settled)? {
            return Ok(());
        }
    }
}

/// Plays a new desk to its end. The cuts that settle pieces are noted.
fn play(
    alloc: Global,
    case: &Case,
    options: &Options,
    kept: &[Cut],
    desk: &mut RecordedPart,
    settled: &mut Vec<Cut>,
) -> Result<(), AllocError>
    requires one { options.now.workers ≡ 1 }
    requires new_desk { desk.old ≡ standing case.now options.now start }
    requires none_settled { settled.old.items ≡ [] }
    requires passes { All (Passes case.now) kept.now }
    ensures settled { OnOk result (All (Passes case.now) settled.new.items) }
    ensures played { OnOk result (IsPlayed case.now options.now kept.now desk.new settled.new.items) }
{
    let mut known = Knowledge::new(alloc, 0);
    let mut waiting = Vec::new(alloc);
    learn_all(alloc, case, kept, &mut known)?;
    absorb_rays(alloc, case, kept, desk, &mut waiting)?;
    take_turns(
        alloc,
        case,
        options,
        kept,
        desk,
        &mut known,
        &mut waiting,
        settled,
    )
}

/// The ending of a run with one worker over cuts that are kept for the case, and the cuts by which
/// its pieces were settled. They pass.
///
/// # Errors
///
/// Want of memory alone.
pub fn answer_over(
    alloc: Global,
    case: &Case,
    options: &Options,
    kept: &[Cut],
) -> Result<(Ending, Vec<Cut>), AllocError>
    requires one { options.now.workers ≡ 1 }
    requires passes { All (Passes case.now) kept.now }
    ensures answer { IfOk result (λ made. IsAnswer case.now options.now kept.now made.0 made.1.items) }
    ensures passes { IfOk result (λ made. All (Passes case.now) made.1.items) }
    ensures is_case { IsCase case.now }
{
    let _pairs = case.pairs();
    let mut desk = RecordedPart::create(alloc, case, options)?;
    let mut settled = Vec::new(alloc);
    play(alloc, case, options, kept, &mut desk, &mut settled)?;
    let ending = desk.close(alloc)?;
    Ok((ending, settled))
}
