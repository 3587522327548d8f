//! Pieces of the feasible set, one for each way to choose a side of every pair.
ghost use Rattle.std.specs.Prelude.{◌≡◌, ◌↔◌, ℕ, List, Contains, IfOk, IsTrue, Some, slice_get, false, true};
ghost use Rattle.nogoods.specs.declared.choice.Choice.{Choice as ChosenSide};
ghost use Rattle.nogoods.specs.declared.choice.Side.{Side as Member};
ghost use Rattle.nogoods.specs.Pieces.{Bars, precedes};

use crate::{Choice, NoGood, Side};
use lp_base::Sequence;
use std::alloc::{AllocError, Global};
use std::marker::Model;

/// One side for each pair. Contracts see the list of the sides.
#[derive(Drop)]
pub struct Piece {
    sides: Sequence<Side>,
}

impl Model for Piece {
    ghost use Rattle.std.specs.Prelude.{List};
    ghost use Rattle.nogoods.specs.declared.choice.Side.{Side};

    ghost Value = { List Side };

    ghost view = { λ p. p.sides };
}

impl Piece {
    /// The piece with these sides, pair by pair.
    pub fn of_sides(sides: Sequence<Side>) -> Piece
        ensures { result ≡ sides }
    {
        Piece { sides }
    }

    /// An equal piece.
    pub fn copy(&self, alloc: Global) -> Result<Piece, AllocError>
        ensures { IfOk result (λ made. made ≡ self.now) }
    {
        Ok(Piece {
            sides: self.sides.copy(alloc)?,
        })
    }

    /// The sides, pair by pair.
    pub fn sides(&self) -> &[Side]
        ensures { result.now ≡ self.now }
    {
        self.sides.as_slice()
    }

    /// Whether this piece stands before the other in the order of words, the first pair first
    /// and A before B.
    pub fn precedes(&self, other: &Piece) -> bool
        ensures { result ≡ precedes self.now other.now }
    {
        is_word_before(self.sides(), other.sides())
    }
}

fn is_word_before(left: &[Side], right: &[Side]) -> bool
    ensures { result ≡ precedes left.now right.now }
{
    let [first, left @ ..] = left else {
        return !right.is_empty();
    };
    let [second, right @ ..] = right else {
        return false;
    };
    match (first, second) {
        (Side::A, Side::B) => true,
        (Side::B, Side::A) => false,
        _ => is_word_before(left, right),
    }
}

fn is_choice_of(choice: Choice, sides: &[Side]) -> bool
    ensures { IsTrue result ↔ (slice_get sides.now choice.pair ≡ Some choice.side) }
{
    match sides.get(choice.pair as usize) {
        Some(side) => *side == choice.side,
        None => false,
    }
}

/// Whether the no-good bars the piece: each of its choices is the piece's. It takes no memory.
pub fn bars(ng: &NoGood, piece: &Piece) -> bool
    ensures { IsTrue result ↔ Bars ng.now piece.now }
{
    let sides = piece.sides();
    ng.choices()
        .iter()
        .all(|choice| is_choice_of(*choice, sides))
}

/// A no-good bars a piece exactly where each choice in it is the piece's choice for that pair.
pub fn barred_by_each_choice()
    ensures { (choices : List ChosenSide) (sides : List Member) →
        Bars choices sides ↔ ((c : ChosenSide) → Contains choices c → slice_get sides c.pair ≡ Some c.side) }
{}

/// No piece stands before itself.
pub fn order_is_irreflexive()
    ensures { (a : List Member) → precedes a a ≡ false }
{}

/// The order of pieces is transitive.
pub fn order_is_transitive()
    ensures { (a b c : List Member) → precedes a b ≡ true → precedes b c ≡ true → precedes a c ≡ true }
{}
