//! The choices of a piece.
ghost use Rattle.std.specs.Prelude.{◌≡◌, ◌<◌, ◌^◌, IfOk, IsTrue, length};
ghost use Rattle.nogoods.specs.Choices.{pairs_ascend};
ghost use Rattle.cert_parts.specs.PieceChoices.{choices_of};

use nogoods::{Choice, NoGood, Piece};
use std::alloc::{AllocError, Global};

/// The sides, each with the number of its pair.
fn list_choices(alloc: Global, piece: &Piece) -> Result<Vec<Choice>, AllocError>
    requires { length piece.now < 2 ^ 32 }
    ensures { IfOk result (λ made. made.items ≡ choices_of piece.now) }
{
    let sides = piece.sides();
    let mut made = Vec::with_capacity(alloc, sides.len())?;
    for (k, side) in sides.iter().enumerate() {
        made.push(Choice {
            pair: k as u32,
            side: *side,
        })?;
    }
    Ok(made)
}

/// The no-good that bars the piece and no other.
pub fn choices_of(alloc: Global, piece: &Piece) -> Result<NoGood, AllocError>
    requires { length piece.now < 2 ^ 32 }
    ensures { IfOk result (λ made. made ≡ choices_of piece.now) }
{
    let list = list_choices(alloc, piece)?;
    match NoGood::from_choices(alloc, list.as_slice())? {
        Some(made) => Ok(made),
        None => unreachable!(),
    }
}
