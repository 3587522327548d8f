//! Cases of small decks.
ghost use Rattle.std.specs.Prelude.{◌<◌, ◌-◌, ◌^◌, length};

use deck_case::case_of;
use lpcc_case::Case;
use mps_pairs::read_deck;
use std::alloc::Global;
use std::test::Fail;

/// A column that is at least 1, paired with each of two others.
pub const SHARED_DECK: &str =
    "ROWS\n N cost\n G r\nCOLUMNS\n x r 1\n y cost 1\n z cost 1\nRHS\n rhs r 1\nPAIRS\n p1 COL x COL y\n p2 COL x COL z\nENDATA\n";

/// Two columns of at most 3 and 2 with the costs -1 and -2, and a pair of both.
pub const BOUNDED_DECK: &str =
    "ROWS\n N cost\nCOLUMNS\n x cost -1\n y cost -2\nBOUNDS\n UP bnd x 3\n UP bnd y 2\nPAIRS\n p1 COL x COL y\nENDATA\n";

/// The bytes of a text that is short enough for the readers.
fn short_bytes(text: &str) -> &[u8]
    ensures { length result.now < 2 ^ 32 - 1 }
{
    let bytes = text.as_bytes();
    if bytes.len() < 4096 { bytes } else { &[] }
}

/// The case of a deck.
pub fn case_in(alloc: Global, deck: &str) -> Result<Case, Fail> {
    let (deck, _) = read_deck(alloc, short_bytes(deck))?;
    Ok(case_of(alloc, &deck)?)
}
