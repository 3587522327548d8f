//! A law of places: the contract of a call that does nothing.
ghost use Rattle.std.specs.Prelude.{◌≡◌, ℕ, List, All, map};
ghost use Rattle.mps_lex.specs.Lines.{lines_of, fields_of};
ghost use Rattle.mps_lex.specs.Places.{placed_lines, words_at, HasBytesOf};
ghost use Rattle.mps_lex.specs.declared.line.Line as placed;

/// The bytes at the places of a line are its fields, and a place has bytes of the text.
pub fn fields_are_slices()
    ensures words { (text : List ℕ) → map (words_at text) (placed_lines text) ≡ map fields_of (lines_of text) }
    ensures within { (text : List ℕ) → All (λ (l : placed.Line). All (HasBytesOf text) l.fields) (placed_lines text) }
{}
