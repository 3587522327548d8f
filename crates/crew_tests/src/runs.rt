//! What a run is made of: a case and options.
ghost use Rattle.std.specs.Prelude.{◌<◌, ◌-◌, ◌^◌, length};

use deck_case::case_of;
use lpcc_case::Case;
use mps_pairs::read_deck;
use play::{Options, ShrinkMode, Workers};
use std::alloc::Global;
use std::test::Fail;

/// The bytes of a text that is short enough for the readers.
fn short_bytes(text: &str) -> &[u8]
    ensures { length result.now < 2 ^ 32 - 1 }
{
    let bytes = text.as_bytes();
    if bytes.len() < 4096 { bytes } else { &[] }
}

/// The case of a deck that is a text.
pub fn case_in(alloc: Global, deck: &str) -> Result<Case, Fail> {
    let (deck, _) = read_deck(alloc, short_bytes(deck))?;
    Ok(case_of(alloc, &deck)?)
}

/// The usual options, for so many workers.
pub fn options_for(workers: u32) -> Result<Options, Fail> {
    Ok(Options {
        workers: Workers::from_number(workers).ok_or("there are workers")?,
        pieces: 1_000_000,
        pivots: 1_000_000,
        shrink: ShrinkMode::Full,
    })
}
