//! How a drawn piece is settled: by the exact program of its choices, and a cut that is shrunk.
ghost use Rattle.std.specs.Prelude.{◌≡◌, IfOk};
ghost use Rattle.nogoods.specs.Pieces.{Bars};
ghost use Rattle.lpcc_case.specs.Pieces.{IsPiece};
ghost use Rattle.cuts.specs.Cuts.{Passes, no_good_of};
ghost use Rattle.reasons.specs.Reasons.{IsActiveAgainst};
ghost use Rattle.walks.specs.Ends.{IsPointAt};
ghost use Rattle.lex_simplex.specs.Answers.{IsAnswer, IsPointCutOf};
ghost use Rattle.play.specs.Points.{choices_of};
ghost use Rattle.play.specs.declared.event.ShrinkMode.TheVariants.{Full, Off};
ghost use Rattle.settling.specs.Known.{IsTrueKnowledge};
ghost use Rattle.settling.specs.Outcomes.{IsOutcomeOf};

use crate::Knowledge;
use cuts::Cut;
use lex_simplex::{LpAnswer, solve};
use lp_base::Sequence;
use lpcc_case::{Case, Point};
use nogoods::Piece;
use play::{Options, Outcome, ShrinkMode, Ticket, choices_of};
use std::alloc::{AllocError, Global};

/// The outcome by a cut as it is.
fn by_plain_cut(
    alloc: Global,
    case: &Case,
    options: &Options,
    known: &mut Knowledge,
    piece: &Piece,
    cut: Cut,
) -> Result<Outcome, AllocError>
    requires off { options.now.shrink ≡ Off }
    requires passes { Passes case.now cut }
    requires bars { Bars (no_good_of cut) piece.now }
    requires active { IsActiveAgainst cut known.old.incumbent }
    requires known { IsTrueKnowledge case.now known.old }
    ensures known { IsTrueKnowledge case.now known.new }
    ensures outcome { IfOk result (IsOutcomeOf case.now options.now piece.now) }
{
    let best = known.copy_incumbent(alloc)?;
    known.keep_cut(case, &cut)?;
    Ok(Outcome::Cut {
        cut,
        kept: Sequence::new(alloc),
        best,
    })
}

/// The outcome by what shrinking leaves of a cut.
fn by_shrunk_cut(
    alloc: Global,
    case: &Case,
    options: &Options,
    known: &mut Knowledge,
    piece: &Piece,
    cut: Cut,
) -> Result<Outcome, AllocError>
    requires full { options.now.shrink ≡ Full }
    requires passes { Passes case.now cut }
    requires bars { Bars (no_good_of cut) piece.now }
    requires active { IsActiveAgainst cut known.old.incumbent }
    requires known { IsTrueKnowledge case.now known.old }
    ensures known { IsTrueKnowledge case.now known.new }
    ensures outcome { IfOk result (IsOutcomeOf case.now options.now piece.now) }
{
    let best = known.copy_incumbent(alloc)?;
    let shrunk = known.shrink_cut(case, cut, options.pivots)?;
    known.keep_cut(case, &shrunk.cut)?;
    Ok(Outcome::Cut {
        cut: shrunk.cut,
        kept: shrunk.kept,
        best,
    })
}

/// The outcome by a cut that bars the piece and is active against the incumbent.
fn by_cut(
    alloc: Global,
    case: &Case,
    options: &Options,
    known: &mut Knowledge,
    piece: &Piece,
    cut: Cut,
) -> Result<Outcome, AllocError>
    requires passes { Passes case.now cut }
    requires bars { Bars (no_good_of cut) piece.now }
    requires active { IsActiveAgainst cut known.old.incumbent }
    requires known { IsTrueKnowledge case.now known.old }
    ensures known { IsTrueKnowledge case.now known.new }
    ensures outcome { IfOk result (IsOutcomeOf case.now options.now piece.now) }
{
    match options.shrink {
        ShrinkMode::Off => by_plain_cut(alloc, case, options, known, piece, cut),
        ShrinkMode::Full => by_shrunk_cut(alloc, case, options, known, piece, cut),
    }
}

/// Solves the program of the piece's choices.
fn solve_piece(
    alloc: Global,
    case: &Case,
    options: &Options,
    piece: &Piece,
) -> Result<LpAnswer, AllocError>
    requires { IsPiece case.now piece.now }
    ensures { IfOk result (IsAnswer case.now (choices_of piece.now) options.now.pivots) }
{
    let _pairs = case.pairs();
    let tight = choices_of(alloc, piece)?;
    solve(alloc, case, &tight, options.pivots)
}

/// The outcome of a piece whose program has a point of least cost.
fn by_optimum(
    alloc: Global,
    case: &Case,
    options: &Options,
    known: &mut Knowledge,
    piece: &Piece,
    point: Point,
    cut: Cut,
) -> Result<Outcome, AllocError>
    requires piece { IsPiece case.now piece.now }
    requires known { IsTrueKnowledge case.now known.old }
    requires point { IsPointAt case.now (choices_of piece.now) point }
    requires cut { IsPointCutOf case.now (choices_of piece.now) point cut }
    ensures known { IsTrueKnowledge case.now known.new }
    ensures outcome { IfOk result (IsOutcomeOf case.now options.now piece.now) }
{
    known.improve(case, point);
    by_cut(alloc, case, options, known, piece, cut)
}

/// Solves the program of the piece's choices, and keeps the best point.
fn by_program(
    alloc: Global,
    case: &Case,
    options: &Options,
    known: &mut Knowledge,
    piece: &Piece,
) -> Result<Outcome, AllocError>
    requires piece { IsPiece case.now piece.now }
    requires known { IsTrueKnowledge case.now known.old }
    ensures known { IsTrueKnowledge case.now known.new }
    ensures outcome { IfOk result (IsOutcomeOf case.now options.now piece.now) }
{
    match solve_piece(alloc, case, options, piece)? {
        LpAnswer::Infeasible(cut) => by_cut(alloc, case, options, known, piece, cut),
        LpAnswer::Optimum(point, cut) => by_optimum(alloc, case, options, known, piece, point, cut),
        LpAnswer::Unbounded(point, ray) => Ok(Outcome::Unbounded { point, ray }),
        LpAnswer::Wide(at) => Ok(Outcome::Wide(at)),
        LpAnswer::Spent(at) => Ok(Outcome::Spent(at)),
    }
}

/// How the piece of a ticket is to be settled: by a cut that bars it, by a direction in which the
/// cost falls without end, or by the end of a walk without an answer. A known cut serves where one
/// bars the piece and is active; else the program of the piece's choices is solved. Where none serves
/// and `PLAIN_PIECES` pieces of the run were drawn before it, the search over the pairs is made first,
/// with as many conflicts as pieces may be drawn. The best point of either becomes the incumbent.
///
/// # Errors
///
/// Want of memory alone.
pub fn outcome_of(
    alloc: Global,
    case: &Case,
    options: &Options,
    known: &mut Knowledge,
    ticket: &Ticket,
) -> Result<Outcome, AllocError>
    requires piece { IsPiece case.now ticket.now.piece }
    requires known { IsTrueKnowledge case.now known.old }
    ensures known { IsTrueKnowledge case.now known.new }
    ensures outcome { IfOk result (IsOutcomeOf case.now options.now ticket.now.piece) }
{
    let piece = &ticket.piece;
    known.prepare(case, ticket, options.pieces)?;
    match known.copy_against(case, piece)? {
        Some(cut) => by_cut(alloc, case, options, known, piece, cut),
        None => by_program(alloc, case, options, known, piece),
    }
}
