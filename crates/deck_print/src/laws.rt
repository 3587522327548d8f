//! That a printed deck spells what it was printed from.
ghost use Rattle.std.specs.Prelude.{length};
ghost use Rattle.decks.specs.Decks.{IsDeck};
ghost use Rattle.decks.specs.Texts.{Spells};
ghost use Rattle.deck_print.specs.Printed.{IsPrinted, Printed, end_of, printed_deck, printed_text};

/// The text of a deck with names, whose parts keep what they have to keep, spells the deck, up to
/// the end of the text.
pub fn a_printed_deck_is_spelled()
    ensures { (p : Printed) → IsPrinted p → IsDeck (printed_deck p (end_of p)) → Spells (printed_text p) (printed_deck p (end_of p)) (length (printed_text p)) }
{}
