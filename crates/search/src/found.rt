//! The first piece that no step of a log bars and that is not blocked.
ghost use Rattle.std.specs.Prelude.{◌≡◌, ◌↔◌, ◌⊎◌, ◌<◌, ◌≤◌, ℕ, List, [], All, Contains, IfOk, OnOk, IfSome, IfNone, length, true, slice_index_or};
ghost use Rattle.nogoods.specs.declared.choice.Choice.{Choice as ChosenSide};
ghost use Rattle.nogoods.specs.declared.choice.Side.{Side as Member};
ghost use Rattle.nogoods.specs.Pieces.{Bars};
ghost use Rattle.search.specs.declared.found.Found.{Found as Answer};
ghost use Rattle.derivation.specs.HintRuns.{NamesBelow};
ghost use Rattle.derivation.specs.Logs.{no_goods};
ghost use Rattle.search.specs.FirstPieces.{IsFound, HasEmpty, found_or};
ghost use Rattle.search.specs.Growth.{Grown};
ghost use Rattle.search.specs.Progress.{LeadsTo};
ghost use Rattle.search.specs.Walks.{AllExhausted, Witnessed, IsResolvent, IsWalk, InPhase, Exhausts, moments_left};
ghost use Rattle.search.specs.declared.walk.Reason.TheVariants as because;
ghost use Rattle.search.specs.declared.walk.Phase.TheVariants as phase;

use crate::index::Index;
use crate::refutation::conclude;
use crate::walk::{Phase, Reason, Resolvent, Walk, whole};
use derivation::Log;
use lp_base::Sequence;
use lpcc_case::MOST_PAIRS;
use nogoods::{Piece, Side};
use piece_sets::PieceSet;
use std::alloc::{AllocError, Global};

/// What a search finds.
#[derive(Drop)]
pub enum Found {
    /// The first piece that is neither barred nor blocked.
    Piece(Piece),
    /// Every piece is barred.
    Refuted,
    /// Every piece that is not barred is blocked, and there is one.
    Blocked,
}

#[derive(Drop)]
enum Progress {
    Go(Phase),
    End(Found),
    Over,
}

fn piece_of(alloc: Global, sides: &[Side]) -> Result<Piece, AllocError>
    ensures { IfOk result (λ made. made ≡ sides.now) }
{
    Ok(Piece::of_sides(Sequence::of_vec(Vec::from_slice(alloc, sides)?)))
}

fn at_whole(
    alloc: Global,
    log: &Log,
    fresh: bool,
    pairs: u32,
    blocked: &PieceSet,
    walk: &mut Walk,
) -> Result<Progress, AllocError>
    requires full { length walk.old.sides.items ≡ pairs }
    requires kept { IsWalk fresh pairs (no_goods log.now) blocked.now walk.old.sides.items walk.old.reasons.items }
    ensures { IfOk result (LeadsTo fresh pairs (no_goods log.now) blocked.now walk.new.sides.items walk.new.reasons.items (moments_left pairs walk.old.sides.items phase.Open)) }
{
    match whole(log, fresh, pairs, blocked, walk.sides.as_slice()) {
        Some(reason) => Ok(Progress::Go(Phase::Exhausted(reason))),
        None => {
            let piece = piece_of(alloc, walk.sides.as_slice())?;
            Ok(Progress::End(Found::Piece(piece)))
        }
    }
}

fn at_open(
    alloc: Global,
    log: &Log,
    index: &Index,
    fresh: bool,
    pairs: u32,
    blocked: &PieceSet,
    walk: &mut Walk,
) -> Result<Progress, AllocError>
    requires kept { IsWalk fresh pairs (no_goods log.now) blocked.now walk.old.sides.items walk.old.reasons.items }
    ensures { IfOk result (LeadsTo fresh pairs (no_goods log.now) blocked.now walk.new.sides.items walk.new.reasons.items (moments_left pairs walk.old.sides.items phase.Open)) }
{
    if walk.sides.len() >= pairs as usize {
        return at_whole(alloc, log, fresh, pairs, blocked, walk);
    }
    let next = walk.open(log, index, fresh, pairs, blocked)?;
    Ok(Progress::Go(next))
}

fn at_barred(
    alloc: Global,
    log: &Log,
    fresh: bool,
    pairs: u32,
    blocked: &PieceSet,
    walk: &mut Walk,
    step: usize,
) -> Result<Progress, AllocError>
    requires kept { IsWalk fresh pairs (no_goods log.now) blocked.now walk.old.sides.items walk.old.reasons.items }
    requires within { step < length (no_goods log.now) }
    requires bars { Bars (slice_index_or (no_goods log.now) step []) walk.old.sides.items }
    ensures { IfOk result (LeadsTo fresh pairs (no_goods log.now) blocked.now walk.new.sides.items walk.new.reasons.items (moments_left pairs walk.old.sides.items (phase.Exhausted (because.By step)))) }
{
    match walk.back_by(alloc, log, fresh, pairs, blocked, step)? {
        Some(next) => Ok(Progress::Go(next)),
        None => Ok(Progress::End(Found::Refuted)),
    }
}

fn at_resolved(
    alloc: Global,
    log: &mut Log,
    index: &mut Index,
    fresh: bool,
    pairs: u32,
    blocked: &PieceSet,
    walk: &mut Walk,
    resolvent: Resolvent,
) -> Result<Progress, AllocError>
    requires few { pairs ≤ MOST_PAIRS }
    requires named { All (NamesBelow pairs) (no_goods log.old) }
    requires kept { IsWalk fresh pairs (no_goods log.old) blocked.now walk.old.sides.items walk.old.reasons.items }
    requires resolvent { IsResolvent (no_goods log.old) walk.old.sides.items resolvent.marks.items resolvent.hints.items }
    ensures grown { Grown pairs log.old log.new }
    ensures next { IfOk result (LeadsTo fresh pairs (no_goods log.new) blocked.now walk.new.sides.items walk.new.reasons.items (moments_left pairs walk.old.sides.items (phase.Resolved resolvent))) }
{
    let count = walk.sides.len();
    if count == 0 {
        conclude(alloc, log, pairs, resolvent.hints)?;
        return Ok(Progress::End(Found::Refuted));
    }
    let next = walk.back_resolved(
        alloc,
        log,
        index,
        fresh,
        pairs,
        blocked,
        count - 1,
        resolvent,
    )?;
    Ok(Progress::Go(next))
}

fn at_blocked(log: &Log, fresh: bool, pairs: u32, blocked: &PieceSet, walk: &mut Walk) -> Progress
    requires kept { IsWalk fresh pairs (no_goods log.now) blocked.now walk.old.sides.items walk.old.reasons.items }
    requires exhausted { Exhausts fresh pairs (no_goods log.now) blocked.now walk.old.sides.items because.BlockedPieces }
    ensures { LeadsTo fresh pairs (no_goods log.now) blocked.now walk.new.sides.items walk.new.reasons.items (moments_left pairs walk.old.sides.items (phase.Exhausted because.BlockedPieces)) result }
{
    match walk.back(log, fresh, pairs, blocked) {
        Some(next) => Progress::Go(next),
        None => Progress::Over,
    }
}

fn advance(
    alloc: Global,
    log: &mut Log,
    index: &mut Index,
    fresh: bool,
    pairs: u32,
    blocked: &PieceSet,
    walk: &mut Walk,
    phase: Phase,
) -> Result<Progress, AllocError>
    requires few { pairs ≤ MOST_PAIRS }
    requires named { All (NamesBelow pairs) (no_goods log.old) }
    requires kept { IsWalk fresh pairs (no_goods log.old) blocked.now walk.old.sides.items walk.old.reasons.items }
    requires here { InPhase fresh pairs (no_goods log.old) blocked.now walk.old.sides.items phase }
    ensures grown { Grown pairs log.old log.new }
    ensures next { IfOk result (LeadsTo fresh pairs (no_goods log.new) blocked.now walk.new.sides.items walk.new.reasons.items (moments_left pairs walk.old.sides.items phase)) }
{
    match phase {
        Phase::Open => at_open(alloc, log, index, fresh, pairs, blocked, walk),
        Phase::Turn(reason) => {
            let next = walk.turn(alloc, log, index, fresh, pairs, blocked, reason)?;
            Ok(Progress::Go(next))
        }
        Phase::Exhausted(Reason::By(step)) => at_barred(
            alloc, log, fresh, pairs, blocked, walk, step,
        ),
        Phase::Exhausted(Reason::BlockedPieces) => Ok(at_blocked(log, fresh, pairs, blocked, walk)),
        Phase::Resolved(resolvent) => at_resolved(
            alloc, log, index, fresh, pairs, blocked, walk, resolvent,
        ),
    }
}

/// Goes on to the end of the walk. None where each piece that is not barred is blocked, and, if a
/// witness is kept, one is.
pub(crate) fn run(
    alloc: Global,
    log: &mut Log,
    index: &mut Index,
    fresh: bool,
    pairs: u32,
    blocked: &PieceSet,
    walk: &mut Walk,
) -> Result<Option<Found>, AllocError>
    requires few { pairs ≤ MOST_PAIRS }
    requires named { All (NamesBelow pairs) (no_goods log.old) }
    requires kept { IsWalk fresh pairs (no_goods log.old) blocked.now walk.old.sides.items walk.old.reasons.items }
    ensures grown { Grown pairs log.old log.new }
    ensures held { IfOk result (λ ended. IsWalk fresh pairs (no_goods log.new) blocked.now walk.new.sides.items walk.new.reasons.items) }
    ensures found { IfOk result (λ ended. IfSome ended (IsFound pairs (no_goods log.new) blocked.now)) }
    ensures empty { IfOk result (λ ended. IfSome ended (HasEmpty (no_goods log.new))) }
    ensures exhausted { IfOk result (λ ended. IfNone ended (AllExhausted pairs (no_goods log.new) blocked.now)) }
    ensures witnessed { IfOk result (λ ended. IfNone ended (Witnessed fresh pairs (no_goods log.new) blocked.now)) }
{
    let mut phase = Phase::Open;
    loop {
        match advance(alloc, log, index, fresh, pairs, blocked, walk, phase)? {
            Progress::Go(next) => phase = next,
            Progress::End(found) => return Ok(Some(found)),
            Progress::Over => return Ok(None),
        }
    }
}

fn found_of(ended: Option<Found>) -> Found
    ensures { result ≡ found_or ended }
{
    match ended {
        Some(found) => found,
        None => Found::Blocked,
    }
}

/// What `next` finds where the pieces are in a set.
pub(crate) fn next_in(
    alloc: Global,
    log: &mut Log,
    pairs: u32,
    blocked: &PieceSet,
) -> Result<Found, AllocError>
    requires few { pairs ≤ MOST_PAIRS }
    requires named { All (NamesBelow pairs) (no_goods log.old) }
    ensures found { IfOk result (IsFound pairs (no_goods log.old) blocked.now) }
    ensures empty { IfOk result (HasEmpty (no_goods log.new)) }
    ensures grown { Grown pairs log.old log.new }
{
    let mut index = Index::create(alloc, pairs as usize, log.steps().len())?;
    index.fill(log)?;
    let mut walk = Walk::create(alloc);
    let ended = run(alloc, log, &mut index, true, pairs, blocked, &mut walk)?;
    Ok(found_of(ended))
}

fn put(set: &mut PieceSet, piece: Piece) -> Result<(), AllocError>
    ensures { OnOk result ((p : List Member) → Contains set.new p ↔ ((p ≡ piece) ⊎ Contains set.old p)) }
{
    match set.insert(piece) {
        Ok(()) => Ok(()),
        Err(_) => Err(AllocError),
    }
}

/// The set of these pieces.
fn set_of(alloc: Global, pieces: &[Piece]) -> Result<PieceSet, AllocError>
    ensures { IfOk result (λ made. (p : List Member) → Contains made p ↔ Contains pieces.now p) }
{
    let mut made = PieceSet::create(alloc);
    for piece in pieces {
        put(&mut made, piece.copy(alloc)?)?;
    }
    Ok(made)
}

/// The first piece, in the order of pieces, that no step of the log bars and that is not blocked.
/// It adds steps that follow from the log alone, the last of them without choices where every
/// piece is barred. After want of memory the log may have more such steps.
pub fn next(
    alloc: Global,
    log: &mut Log,
    pairs: u32,
    blocked: &[Piece],
) -> Result<Found, AllocError>
    requires few { pairs ≤ MOST_PAIRS }
    requires named { All (NamesBelow pairs) (no_goods log.old) }
    ensures found { IfOk result (IsFound pairs (no_goods log.old) blocked.now) }
    ensures empty { IfOk result (HasEmpty (no_goods log.new)) }
    ensures grown { Grown pairs log.old log.new }
{
    let blocked = set_of(alloc, blocked)?;
    next_in(alloc, log, pairs, &blocked)
}

/// What a search finds depends on which pieces are blocked alone.
pub fn same_pieces_are_found()
    ensures { (pairs : ℕ) (ngs : List (List ChosenSide)) (blocked same : List (List Member)) (found : Answer) →
        ((p : List Member) → Contains blocked p ↔ Contains same p) →
        IsFound pairs ngs blocked found → IsFound pairs ngs same found }
{}
