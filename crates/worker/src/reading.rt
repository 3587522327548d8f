//! Reading the lanes of the other workers to their end.
ghost use Rattle.std.specs.Prelude.{◌≡◌, ◌≢◌, ◌<◌, ◌+◌, IfOk, IsTrue, OnOk, None, length};
ghost use Rattle.cut_words.specs.Words.{item_length};
ghost use Rattle.cut_pool.specs.Reaches.{HasCaughtUp};
ghost use Rattle.settling.specs.Known.{IsTrueKnowledge};
ghost use Rattle.worker.specs.Reading.{AreDry, IsReading, IsSameWay};

use crate::noting::{Barring, learn, note};
use cut_pool::Reach;
use lpcc_case::Case;
use nogoods::Piece;
use settling::Knowledge;
use std::alloc::{AllocError, Global};
use std::sync::Wait;

/// Reads the next item of a lane. A cut that bars the piece is kept where none was found before.
/// False comes at the lane's end.
#[tactic(auto, using(crate::proofs::LaneLaws::dry_laws))]
fn read_next(
    alloc: Global,
    case: &Case,
    piece: &Piece,
    known: &mut Knowledge,
    reach: &mut Reach,
    lane: u32,
    words: &mut [u64],
    found: &mut Option<Barring>,
) -> Result<bool, AllocError>
    requires other { lane ≢ reach.old.worker }
    requires lane { lane < length reach.old.lanes }
    requires length { length words.old ≡ item_length case.now }
    requires known { IsTrueKnowledge case.now known.old }
    requires reading { IsReading case.now piece.now known.old.incumbent reach.old found.old }
    requires dry { AreDry reach.old lane }
    ensures same { IsSameWay reach.old reach.new }
    ensures known { IsTrueKnowledge case.now known.new }
    ensures incumbent { known.new.incumbent ≡ known.old.incumbent }
    ensures length { length words.new ≡ length words.old }
    ensures reading { OnOk result (IsReading case.now piece.now known.new.incumbent reach.new found.new) }
    ensures dry { AreDry reach.new lane }
    ensures last { IfOk result (λ more. (IsTrue more → ⊥) → AreDry reach.new (lane + 1)) }
{
    let place = reach.given(lane);
    if !reach.next(lane, words) {
        return Ok(false);
    }
    learn(alloc, case, known, words)?;
    let before = found.take();
    *found = note(alloc, case, piece, known, words, lane, place, before)?;
    Ok(true)
}

/// Reads a lane to its end.
fn read_lane<R: Wait>(
    rt: &R,
    alloc: Global,
    case: &Case,
    piece: &Piece,
    known: &mut Knowledge,
    reach: &mut Reach,
    lane: u32,
    words: &mut [u64],
    found: &mut Option<Barring>,
) -> Result<(), AllocError>
    requires other { lane ≢ reach.old.worker }
    requires lane { lane < length reach.old.lanes }
    requires length { length words.old ≡ item_length case.now }
    requires known { IsTrueKnowledge case.now known.old }
    requires reading { IsReading case.now piece.now known.old.incumbent reach.old found.old }
    requires dry { AreDry reach.old lane }
    ensures same { IsSameWay reach.old reach.new }
    ensures known { IsTrueKnowledge case.now known.new }
    ensures incumbent { known.new.incumbent ≡ known.old.incumbent }
    ensures length { length words.new ≡ length words.old }
    ensures reading { OnOk result (IsReading case.now piece.now known.new.incumbent reach.new found.new) }
    ensures dry { OnOk result (AreDry reach.new (lane + 1)) }
{
    for _ in rt.forever() {
        if !read_next(alloc, case, piece, known, reach, lane, words, found)? {
            return Ok(());
        }
    }
    unreachable!()
}

/// Reads the lanes of all other workers to their end. Gives a cut that bars the piece and is active,
/// if one was read.
pub fn read_lanes<R: Wait>(
    rt: &R,
    alloc: Global,
    case: &Case,
    piece: &Piece,
    known: &mut Knowledge,
    reach: &mut Reach,
    workers: u32,
    words: &mut [u64],
) -> Result<Option<Barring>, AllocError>
    requires lanes { length reach.old.lanes ≡ workers }
    requires length { length words.old ≡ item_length case.now }
    requires known { IsTrueKnowledge case.now known.old }
    requires reading { IsReading case.now piece.now known.old.incumbent reach.old None }
    ensures same { IsSameWay reach.old reach.new }
    ensures known { IsTrueKnowledge case.now known.new }
    ensures incumbent { known.new.incumbent ≡ known.old.incumbent }
    ensures length { length words.new ≡ length words.old }
    ensures reading { IfOk result (IsReading case.now piece.now known.new.incumbent reach.new) }
    ensures read { OnOk result (HasCaughtUp reach.new) }
{
    let mut found = None;
    for lane in 0..workers {
        if lane != reach.worker() {
            read_lane(
                rt, alloc, case, piece, known, reach, lane, words, &mut found,
            )?;
        }
    }
    Ok(found)
}
