//! What a search finds, by number, and what all pieces in a row say.
ghost use Rattle.std.specs.Prelude.{◌≡◌, ◌≤◌, All, IsTrue};
ghost use Rattle.derivation.specs.HintRuns.{NamesBelow};
ghost use Rattle.derivation.specs.Logs.{no_good_of, no_goods};

use derivation::{Log, Step};
use lp_base::Sequence;
use lpcc_case::MOST_PAIRS;
use nogoods::{NoGood, Piece, Side, bars};
use search::{Found, next};
use std::alloc::{AllocError, Global};

/// What a search finds. The number of a piece has a bit for each pair, the first pair's the
/// highest, and 1 for side B, so that numbers ascend as pieces do.
#[derive(Clone, Copy, Debug, PartialEq, Eq, Drop)]
pub enum Answer {
    Piece(u32),
    Refuted,
    Blocked,
    /// The log names a pair that there is not.
    Unnamed,
}

fn no_good(step: &Step) -> &NoGood
    ensures { result.now ≡ no_good_of step.now }
{
    match step {
        Step::Start(ng) => ng,
        Step::Derived(ng, _) => ng,
    }
}

fn is_named(step: &Step, pairs: u32) -> bool
    ensures { IsTrue result → NamesBelow pairs (no_good_of step.now) }
{
    no_good(step)
        .choices()
        .iter()
        .all(|choice| choice.pair < pairs)
}

fn are_named(log: &Log, pairs: u32) -> bool
    ensures { IsTrue result → All (λ step. NamesBelow pairs (no_good_of step)) log.now }
{
    log.steps().iter().all(|step| is_named(step, pairs))
}

/// The piece of a number.
pub fn piece_of(alloc: Global, pairs: u32, number: u32) -> Result<Piece, AllocError> {
    let mut rest = number;
    let mut sides = Vec::new(alloc);
    for _ in 0..pairs {
        sides.push(if rest % 2 == 0 { Side::A } else { Side::B })?;
        rest /= 2;
    }
    sides.reverse();
    Ok(Piece::of_sides(Sequence::of_vec(sides)))
}

/// The number of a piece.
pub fn number_of(piece: &Piece) -> u32 {
    let mut number: u32 = 0;
    for side in piece.sides() {
        let bit = if *side == Side::A { 0 } else { 1 };
        number = number.wrapping_mul(2).wrapping_add(bit);
    }
    number
}

/// Whether a step bars the piece.
pub fn is_barred(log: &Log, piece: &Piece) -> bool {
    log.steps().iter().any(|step| bars(no_good(step), piece))
}

fn answer_of(found: &Found) -> Answer {
    match found {
        Found::Piece(piece) => Answer::Piece(number_of(piece)),
        Found::Refuted => Answer::Refuted,
        Found::Blocked => Answer::Blocked,
    }
}

/// What the search finds where these pieces are blocked.
pub fn find(alloc: Global, log: &mut Log, pairs: u32, blocked: &[u32]) -> Result<Answer, AllocError>
    requires { pairs ≤ MOST_PAIRS }
{
    let mut pieces = Vec::new(alloc);
    for number in blocked {
        pieces.push(piece_of(alloc, pairs, *number)?)?;
    }
    if are_named(log, pairs) {
        let found = next(alloc, log, pairs, pieces.as_slice())?;
        return Ok(answer_of(&found));
    }
    Ok(Answer::Unnamed)
}
