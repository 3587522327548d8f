//! Sets of pieces.
ghost use Rattle.std.specs.Prelude.{◌≡◌, ◌<◌, ◌≤◌, ◌↔◌, ◌⊎◌, ℕ, [], List, Contains, IfErr, IsTrue, OnErr, OnOk, length, slice_index_or};
ghost use Rattle.nogoods.specs.declared.choice.Side.{Side as Member};
ghost use Rattle.nogoods.specs.Pieces.{precedes};
ghost use Rattle.piece_sets.specs.PieceSets.{IsAscending, IsPlace};

use nogoods::{Piece, Side};
use std::alloc::Global;
use std::marker::Model;

/// A set of pieces. Contracts see the list of them in the order of pieces.
#[derive(Drop)]
pub struct PieceSet {
    held: Vec<Piece>,
}

impl Model for PieceSet {
    ghost use Rattle.std.specs.Prelude.{List};
    ghost use Rattle.nogoods.specs.declared.choice.Side.{Side};
    ghost use Rattle.piece_sets.specs.PieceSets.{IsAscending};

    ghost Value = { List (List Side) };

    ghost view = { λ s. s.held.items };

    ghost invariant = { λ s. IsAscending s.held.items };
}

fn are_sides(piece: &Piece, sides: &[Side]) -> bool
    ensures { IsTrue result ↔ (piece.now ≡ sides.now) }
{
    piece.sides() == sides
}

fn is_before(left: &[Side], right: &[Side]) -> bool
    ensures { result ≡ precedes left.now right.now }
{
    let [first, left @ ..] = left else {
        return !right.is_empty();
    };
    let [second, right @ ..] = right else {
        return false;
    };
    match (first, second) {
        (Side::A, Side::B) => true,
        (Side::B, Side::A) => false,
        _ => is_before(left, right),
    }
}

fn stands_before(pieces: &[Piece], at: usize, sides: &[Side]) -> bool
    requires { at < length pieces.now }
    ensures { result ≡ precedes (slice_index_or pieces.now at []) sides.now }
{
    is_before(pieces[at].sides(), sides)
}

/// How many of the pieces stand before this one.
fn place_of(pieces: &[Piece], sides: &[Side]) -> usize
    requires { IsAscending pieces.now }
    ensures { IsPlace pieces.now sides.now result }
{
    let mut low = 0;
    let mut high = pieces.len();
    while low < high {
        let middle = low + (high - low) / 2;
        if stands_before(pieces, middle, sides) {
            low = middle + 1;
        } else {
            high = middle;
        }
    }
    low
}

fn is_at(pieces: &[Piece], at: usize, sides: &[Side]) -> bool
    ensures { IsTrue result ↔ ((at < length pieces.now) × (slice_index_or pieces.now at [] ≡ sides.now)) }
{
    match pieces.get(at) {
        Some(piece) => are_sides(piece, sides),
        None => false,
    }
}

fn put_at(held: &mut Vec<Piece>, at: usize, piece: Piece) -> Result<(), Piece>
    requires ascending { IsAscending held.old.items }
    requires place { IsPlace held.old.items piece at }
    requires other { ¬ ((at < length held.old.items) × (slice_index_or held.old.items at [] ≡ piece)) }
    ensures ascending { IsAscending held.new.items }
    ensures ok { OnOk result ((p : List Member) → Contains held.new.items p ↔ ((p ≡ piece) ⊎ Contains held.old.items p)) }
    ensures err { OnErr result (held.new.items ≡ held.old.items) }
    ensures back { IfErr result (λ back. back ≡ piece) }
{
    match held.insert(at, piece) {
        Ok(()) => Ok(()),
        Err(failed) => Err(failed.value),
    }
}

fn take_at(held: &mut Vec<Piece>, at: usize)
    requires ascending { IsAscending held.old.items }
    requires within { at < length held.old.items }
    ensures ascending { IsAscending held.new.items }
    ensures rest { (p : List Member) → Contains held.new.items p ↔ (Contains held.old.items p × ¬ (p ≡ slice_index_or held.old.items at [])) }
{
    held.remove(at);
}

impl PieceSet {
    /// The set without pieces. It takes no memory.
    pub fn create(alloc: Global) -> PieceSet
        ensures { result ≡ [] }
    {
        PieceSet {
            held: Vec::new(alloc),
        }
    }

    /// The pieces in their order.
    pub fn pieces(&self) -> &[Piece]
        ensures { result.now ≡ self.now }
    {
        self.held.as_slice()
    }

    /// Whether the piece of these sides is in the set.
    pub fn has(&self, sides: &[Side]) -> bool
        ensures { IsTrue result ↔ Contains self.now sides.now }
    {
        let pieces = self.held.as_slice();
        is_at(pieces, place_of(pieces, sides), sides)
    }

    /// Adds a piece, if it is not there. Without memory nothing changes, and the piece comes back.
    pub fn insert(&mut self, piece: Piece) -> Result<(), Piece>
        ensures ok { OnOk result ((p : List Member) → Contains self.new p ↔ ((p ≡ piece) ⊎ Contains self.old p)) }
        ensures err { OnErr result (self.new ≡ self.old) }
        ensures back { IfErr result (λ back. back ≡ piece) }
    {
        let at = place_of(self.held.as_slice(), piece.sides());
        if is_at(self.held.as_slice(), at, piece.sides()) {
            return Ok(());
        }
        put_at(&mut self.held, at, piece)
    }

    /// Takes the piece of these sides out, if it is there.
    pub fn remove(&mut self, sides: &[Side])
        ensures { (p : List Member) → Contains self.new p ↔ (Contains self.old p × ¬ (p ≡ sides.now)) }
    {
        let at = place_of(self.held.as_slice(), sides);
        if is_at(self.held.as_slice(), at, sides) {
            take_at(&mut self.held, at);
        }
    }
}
