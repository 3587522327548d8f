//! What one item of another worker's lane says of a piece.
ghost use Rattle.std.specs.Prelude.{◌≡◌, ◌↔◌, IsTrue, IfOk, MatchOption};
ghost use Rattle.nogoods.specs.Pieces.{Bars};
ghost use Rattle.cuts.specs.Cuts.{Passes, no_good_of};
ghost use Rattle.cut_words.specs.Words.{AreWordsOf, IsInPlace, SpellsPassing};
ghost use Rattle.reasons.specs.Reasons.{IsActiveAgainst};
ghost use Rattle.play.specs.Lawful.{MayCut};
ghost use Rattle.settling.specs.Known.{IsTrueKnowledge};
ghost use Rattle.desk.specs.Settling.{IsRayCutAgainst};
ghost use Rattle.worker.specs.Reading.{Notes};

use cut_words::from_words;
use cuts::Cut;
use lpcc_case::Case;
use nogoods::{Piece, bars};
use reasons::is_active;
use settling::Knowledge;
use std::alloc::{AllocError, Global};

/// Another worker's cut that bars the piece, with the lane and the place at which it was read.
#[derive(Drop)]
pub struct Barring {
    pub lane: u32,
    pub place: u128,
    pub cut: Cut,
}

/// The cut of an item of a lane.
fn cut_of(alloc: Global, case: &Case, words: &[u64]) -> Result<Cut, AllocError>
    requires fact { SpellsPassing case.now words.now }
    ensures words { IfOk result (λ c. IsInPlace case.now c × AreWordsOf case.now c words.now) }
    ensures passes { IfOk result (Passes case.now) }
{
    match from_words(alloc, case, words)? {
        Some(cut) => Ok(cut),
        None => unreachable!(),
    }
}

/// Whether the cut bars the piece, and is active against the best point that is known.
#[tactic(auto, using(settling::proofs::Outcomes::is_limit))]
fn serves(case: &Case, piece: &Piece, known: &Knowledge, cut: &Cut) -> bool
    requires passes { Passes case.now cut.now }
    requires known { IsTrueKnowledge case.now known.now }
    ensures { IsTrue result ↔ (Bars (no_good_of cut.now) piece.now × IsActiveAgainst cut.now known.now.incumbent) }
{
    let _pairs = case.pairs();
    bars(cut.no_good(), piece) && is_active(case, cut, known.incumbent())
}

/// The cut of an item, where it bars the piece and is active. Else no ray cut with these words bars
/// the piece.
fn barring_cut(
    alloc: Global,
    case: &Case,
    piece: &Piece,
    known: &Knowledge,
    words: &[u64],
) -> Result<Option<Cut>, AllocError>
    requires fact { SpellsPassing case.now words.now }
    requires known { IsTrueKnowledge case.now known.now }
    ensures { IfOk result (λ found. MatchOption found (¬ (IsRayCutAgainst case.now piece.now words.now))
        (λ c. AreWordsOf case.now c words.now × MayCut case.now piece.now c known.now.incumbent)) }
{
    let cut = cut_of(alloc, case, words)?;
    if serves(case, piece, known, &cut) {
        Ok(Some(cut))
    } else {
        Ok(None)
    }
}

/// Takes the cut of an item into what is known.
pub fn learn(
    alloc: Global,
    case: &Case,
    known: &mut Knowledge,
    words: &[u64],
) -> Result<(), AllocError>
    requires fact { SpellsPassing case.now words.now }
    requires known { IsTrueKnowledge case.now known.old }
    ensures known { IsTrueKnowledge case.now known.new }
    ensures incumbent { known.new.incumbent ≡ known.old.incumbent }
{
    let cut = cut_of(alloc, case, words)?;
    known.learn(case, cut)
}

/// Notes the item of a place of a lane: its cut where it bars the piece and is active, and none was
/// found before.
#[tactic(auto, using(crate::proofs::LaneLaws::notes_same))]
pub fn note(
    alloc: Global,
    case: &Case,
    piece: &Piece,
    known: &Knowledge,
    words: &[u64],
    lane: u32,
    place: u128,
    found: Option<Barring>,
) -> Result<Option<Barring>, AllocError>
    requires fact { SpellsPassing case.now words.now }
    requires known { IsTrueKnowledge case.now known.now }
    ensures { IfOk result (Notes case.now piece.now known.now.incumbent words.now lane place found) }
{
    if found.is_some() {
        return Ok(found);
    }
    match barring_cut(alloc, case, piece, known, words)? {
        Some(cut) => Ok(Some(Barring { lane, place, cut })),
        None => Ok(None),
    }
}
