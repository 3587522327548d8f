//! What stands behind a deck.
ghost use Rattle.std.specs.Prelude.{◌≡◌, ◌-◌, ◌<◌, ◌^◌, ℕ, MatchResult, None, Some, length};
ghost use Rattle.decks.specs.declared.fault.DeckWhy.TheVariants.{AfterEnd};
ghost use Rattle.decks.specs.declared.fault.DeckFault.TheVariants.{At};
ghost use Rattle.decks.specs.After.{first_after};

use decks::{DeckFault, DeckWhy};
use mps_lex::{first_piece, is_passed};

/// Whether the lines of a text that begin at a place or behind it are all blank or comments. It
/// takes no memory; the fault is AfterEnd, at the first other line.
pub fn nothing_after(text: &[u8], rest: usize) -> Result<(), DeckFault>
    requires { length text.now < 2 ^ 32 - 1 }
    ensures { MatchResult result (λ _. first_after text.now rest ≡ None) (λ f. (line : ℕ) × (first_after text.now rest ≡ Some line) × (f ≡ At line AfterEnd)) }
{
    let mut left = text;
    let mut number: u32 = 1;
    let mut bytes = rest;
    while !left.is_empty() {
        let (piece, after) = first_piece(left);
        if bytes == 0 && !is_passed(piece) {
            return Err(DeckFault::At {
                line: number,
                why: DeckWhy::AfterEnd,
            });
        }
        bytes = bytes.saturating_sub(piece.len());
        left = after;
        number += 1;
    }
    Ok(())
}
