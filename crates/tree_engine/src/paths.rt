//! Paths: the choices from the root of a tree to a node.
ghost use Rattle.std.specs.Prelude.{◌≡◌, ◌<◌, ◌≤◌, ◌+◌, ◌∷◌, ◌++◌, ◌↔◌, IfNone, IfOk, IfSome, IsTrue, OnOk, drop, length, map, slice_index_or, take};
ghost use Rattle.nogoods.specs.declared.choice.Choice.{Choice as Chosen};
ghost use Rattle.lpcc_case.specs.Pieces.{NamesPairs};
ghost use Rattle.cert_check.specs.Acceptance.{IsWholePiece};
ghost use Rattle.tree_engine.specs.Paths.{IsBehind, IsFirstFree, IsInPlace, IsOn, side_of, with_choice};

use lp_base::Sequence;
use lpcc_case::Case;
use nogoods::{Choice, NoGood, Piece, Side};
use std::alloc::{AllocError, Global};

/// Whether the choice at a place is of a pair behind this one.
fn is_behind(choices: &[Choice], at: usize, pair: u32) -> bool
    ensures { IsTrue result ↔ IsBehind choices.now at pair }
{
    match choices.get(at) {
        Some(choice) => pair < choice.pair,
        None => false,
    }
}

/// The place of a choice among choices whose pairs ascend.
fn place_for(choices: &[Choice], choice: Choice) -> usize
    ensures within { result ≤ length choices.now }
    ensures place { with_choice choice choices.now ≡ take result choices.now ++ choice ∷ drop result choices.now }
{
    for at in 0..choices.len() {
        if is_behind(choices, at, choice.pair) {
            return at;
        }
    }
    choices.len()
}

/// The choices with one more.
fn list_with(alloc: Global, choices: &[Choice], choice: Choice) -> Result<Vec<Choice>, AllocError>
    ensures { IfOk result (λ made. made.items ≡ with_choice choice choices.now) }
{
    let at = place_for(choices, choice);
    let mut made = Vec::from_slice(alloc, choices)?;
    made.insert(at, choice)?;
    Ok(made)
}

/// The path with one choice more.
pub fn extended(alloc: Global, path: &NoGood, choice: Choice) -> Result<NoGood, AllocError>
    requires { IsOn path.now choice.pair → ⊥ }
    ensures { IfOk result (λ made. made ≡ with_choice choice path.now) }
{
    let list = list_with(alloc, path.choices(), choice)?;
    match NoGood::from_choices(alloc, list.as_slice())? {
        Some(made) => Ok(made),
        None => unreachable!(),
    }
}

/// Whether the choice at a place is one of the pair of this number.
fn is_in_place(choices: &[Choice], at: usize) -> bool
    ensures { IsTrue result ↔ IsInPlace choices.now at }
{
    match choices.get(at) {
        Some(choice) => choice.pair as usize == at,
        None => false,
    }
}

/// The first pair that is not on the path. None where every pair is.
pub fn first_free(case: &Case, path: &NoGood) -> Option<u32>
    requires named { NamesPairs case.now path.now }
    ensures free { IfSome result (IsFirstFree case.now path.now) }
    ensures whole { IfNone result (IsWholePiece case.now path.now) }
{
    let choices = path.choices();
    for at in 0..case.pairs().len() {
        if !is_in_place(choices, at) {
            return Some(at as u32);
        }
    }
    None
}

fn side_at(choices: &[Choice], at: usize) -> Side
    requires { at < length choices.now }
    ensures { (d : Chosen) → result ≡ side_of (slice_index_or choices.now at d) }
{
    choices[at].side
}

/// Adds the side of the choice at a place.
fn add_side(sides: &mut Sequence<Side>, choices: &[Choice], at: usize) -> Result<(), AllocError>
    requires within { at < length choices.now }
    requires sides { sides.old ≡ map side_of (take at choices.now) }
    ensures { OnOk result (sides.new ≡ map side_of (take (at + 1) choices.now)) }
{
    let side = side_at(choices, at);
    sides.push(side)?;
    Ok(())
}

fn sides_of(alloc: Global, choices: &[Choice]) -> Result<Sequence<Side>, AllocError>
    ensures { IfOk result (λ made. made ≡ map side_of choices.now) }
{
    let mut sides = Sequence::new(alloc);
    for at in 0..choices.len() {
        add_side(&mut sides, choices, at)?;
    }
    Ok(sides)
}

/// The piece with the sides of the choices.
pub fn piece_of(alloc: Global, path: &NoGood) -> Result<Piece, AllocError>
    ensures { IfOk result (λ piece. piece ≡ map side_of path.now) }
{
    let sides = sides_of(alloc, path.choices())?;
    Ok(Piece::of_sides(sides))
}
