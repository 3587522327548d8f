//! A search that goes on where it was.
ghost use Rattle.std.specs.Prelude.{◌≡◌, ◌≤◌, ◌++◌, ◌⊎◌, ℕ, List, All, Contains, IfOk, IsTrue, length};
ghost use Rattle.nogoods.specs.declared.choice.Choice.{Choice};
ghost use Rattle.nogoods.specs.declared.choice.Side.{Side};
ghost use Rattle.search.specs.declared.kept.Search.{Search as Kept};
ghost use Rattle.derivation.specs.HintRuns.{NamesBelow};
ghost use Rattle.derivation.specs.Logs.{no_goods};
ghost use Rattle.search.specs.FirstPieces.{IsBarred, IsFound, HasEmpty, Witness};
ghost use Rattle.search.specs.Growth.{Grown};
ghost use Rattle.search.specs.Kept.{Keeps};
ghost use Rattle.search.specs.Walks.{AllExhausted};

use crate::found::{Found, next_in, run};
use crate::index::Index;
use crate::prefix::barring;
use crate::walk::Walk;
use derivation::Log;
use lpcc_case::MOST_PAIRS;
use nogoods::Piece;
use piece_sets::PieceSet;
use std::alloc::{AllocError, Global};

/// A walk that is kept between searches, beside its log. After an error it is of no more use:
/// make a new one.
pub struct Search {
    index: Index,
    walk: Walk,
}

/// By a call, which keeps the models of the functions small that own one.
impl Drop for Search {
    fn drop(self) {
        let Search { index: _, walk: _ } = self;
    }
}

fn is_witness(log: &Log, pairs: u32, piece: &Piece) -> bool
    ensures { IsTrue result → (length piece.now ≡ pairs) × ¬ (IsBarred (no_goods log.now) piece.now) }
{
    let sides = piece.sides();
    sides.len() == pairs as usize && barring(log, sides).is_none()
}

/// Whether there is a blocked piece that no step bars.
fn has_witness(log: &Log, pairs: u32, blocked: &PieceSet) -> bool
    ensures { IsTrue result → Witness pairs (no_goods log.now) blocked.now }
{
    for piece in blocked.pieces() {
        if is_witness(log, pairs, piece) {
            return true;
        }
    }
    false
}

/// What is found where each piece is barred or blocked.
fn found_at_end(
    alloc: Global,
    log: &mut Log,
    pairs: u32,
    blocked: &PieceSet,
) -> Result<Found, AllocError>
    requires few { pairs ≤ MOST_PAIRS }
    requires named { All (NamesBelow pairs) (no_goods log.old) }
    requires exhausted { AllExhausted pairs (no_goods log.old) blocked.now }
    ensures found { IfOk result (IsFound pairs (no_goods log.old) blocked.now) }
    ensures empty { IfOk result (HasEmpty (no_goods log.new)) }
    ensures grown { Grown pairs log.old log.new }
{
    if has_witness(log, pairs, blocked) {
        return Ok(Found::Blocked);
    }
    next_in(alloc, log, pairs, blocked)
}

impl Search {
    /// A search that stands before the first piece.
    pub fn create(
        alloc: Global,
        pairs: u32,
        log: &Log,
        blocked: &PieceSet,
    ) -> Result<Search, AllocError>
        ensures { IfOk result (Keeps pairs (no_goods log.now) blocked.now) }
    {
        let index = Index::create(alloc, pairs as usize, log.steps().len())?;
        let walk = Walk::create(alloc);
        Ok(Search { index, walk })
    }

    /// The same as `next`, but the walk goes on from the piece that it gave last, which a step
    /// that was added bars, or which was blocked.
    pub fn next(
        &mut self,
        alloc: Global,
        log: &mut Log,
        pairs: u32,
        blocked: &PieceSet,
    ) -> Result<Found, AllocError>
        requires few { pairs ≤ MOST_PAIRS }
        requires named { All (NamesBelow pairs) (no_goods log.old) }
        requires kept { Keeps pairs (no_goods log.old) blocked.now self.old }
        ensures found { IfOk result (IsFound pairs (no_goods log.old) blocked.now) }
        ensures empty { IfOk result (HasEmpty (no_goods log.new)) }
        ensures grown { Grown pairs log.old log.new }
        ensures kept { IfOk result (λ found. Keeps pairs (no_goods log.new) blocked.now self.new) }
    {
        self.index.fill(log)?;
        match run(
            alloc,
            log,
            &mut self.index,
            false,
            pairs,
            blocked,
            &mut self.walk,
        )? {
            Some(found) => Ok(found),
            None => found_at_end(alloc, log, pairs, blocked),
        }
    }
}

/// What a search keeps outlives new steps of the log and new blocked pieces.
pub fn search_outlives_additions()
    ensures { (pairs : ℕ) (ngs added : List (List Choice)) (blocked later : List (List Side)) (s : Kept) →
        ((p : List Side) → Contains blocked p → Contains later p ⊎ IsBarred (ngs ++ added) p) →
        Keeps pairs ngs blocked s → Keeps pairs (ngs ++ added) later s }
{}
