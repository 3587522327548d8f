//! The end of a run: what the desk says after all workers have left it.
ghost use Rattle.std.specs.Prelude.{◌≡◌, IfOk, IfSome, None, false};
ghost use Rattle.desk.specs.Desks.{IsLeft};
ghost use Rattle.engine.specs.Solved.{IsEnded};
ghost use Rattle.crew.specs.Crews.{MayEnd};

use cut_pool::Reach;
use desk::{Desk, Draw};
use lpcc_case::Case;
use play::{Ending, Options};
use std::alloc::{AllocError, Global};

/// Whether the desk is that of this run and has an ending, as a draw by the first worker tells. What
/// came out of a lock is known by its type alone, so the desk is asked first whether it is for this
/// case and these options, and whether the first worker may draw.
#[tactic(auto, using(desk::proofs::DeskLaws::left_is_not_done))]
fn has_ending(
    alloc: Global,
    case: &Case,
    options: &Options,
    desk: &mut Desk,
    reach: &Reach,
) -> Result<bool, AllocError>
    ensures ending { IfOk result (MayEnd case.now options.now desk.new) }
    ensures left { IsLeft desk.old → IfOk result (λ ended. ended ≡ false) }
{
    if !desk.is_for(case, options) {
        return Ok(false);
    }
    if !desk.fits(0, reach, None) {
        return Ok(false);
    }
    match desk.draw(alloc, 0)? {
        Draw::Done => Ok(true),
        Draw::Piece(_) | Draw::Pause | Draw::Left => Ok(false),
    }
}

/// The ending of the desk, if it is that of this run and has one. A desk that was left has none.
pub fn ending_of(
    alloc: Global,
    case: &Case,
    options: &Options,
    desk: Desk,
    reach: &Reach,
) -> Result<Option<Ending>, AllocError>
    ensures ended { IfOk result (λ end. IfSome end (IsEnded case.now options.now)) }
    ensures left { IsLeft desk → IfOk result (λ end. end ≡ None) }
{
    let mut desk = desk;
    if !has_ending(alloc, case, options, &mut desk, reach)? {
        return Ok(None);
    }
    Ok(Some(desk.close(alloc)?))
}
