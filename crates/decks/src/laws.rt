//! Laws of the decks that texts spell, and of their numbers.
ghost use Rattle.std.specs.Prelude.{◌≡◌, ◌<◌, ◌≤◌, ℕ, List, ◌⊎◌, ◌++◌, length, take, true};
ghost use Rattle.lp_nums.specs.Decimals.{spelled};
ghost use Rattle.lp_nums.specs.Fractions.{IsReduced, SameValue};
ghost use Rattle.mps_lex.specs.Lines.{ends_with};
ghost use Rattle.decks.specs.declared.deck.Deck as decks;
ghost use Rattle.decks.specs.declared.fault.DeckWhy as why;
ghost use Rattle.decks.specs.Decks.{IsDeck};
ghost use Rattle.decks.specs.Numbers.{value_of};
ghost use Rattle.decks.specs.Texts.{Fails, Spells};

/// A text spells at most one deck, up to one place.
pub fn spelled_once()
    ensures { (text : List ℕ) (d e : decks.Deck) (p q : ℕ) → Spells text d p → Spells text e q → (d ≡ e) × (p ≡ q) }
{}

/// The place behind the lines that spell a deck is in the text. These lines alone spell the deck,
/// and where an LF ends them, whatever follows does not matter.
pub fn spelled_by_first_lines()
    ensures within { (text : List ℕ) (d : decks.Deck) (p : ℕ) → Spells text d p → p ≤ length text }
    ensures alone { (text : List ℕ) (d : decks.Deck) (p : ℕ) → Spells text d p → Spells (take p text) d p }
    ensures ended { (text : List ℕ) (d : decks.Deck) (p : ℕ) → Spells text d p → p < length text → ends_with 10 (take p text) ≡ true }
    ensures whatever_follows { (text more : List ℕ) (d : decks.Deck) (p : ℕ) → Spells text d p → ends_with 10 (take p text) ≡ true → Spells (take p text ++ more) d p }
{}

/// A text has a first fault exactly where it spells no deck, and it has at most one.
pub fn spelled_or_faulty()
    ensures some { (text : List ℕ) → ((d : decks.Deck) × (p : ℕ) × Spells text d p) ⊎ ((line : ℕ) × (w : why.DeckWhy) × Fails text line w) }
    ensures not_both { (text : List ℕ) (d : decks.Deck) (p line : ℕ) (w : why.DeckWhy) → Spells text d p → Fails text line w → ⊥ }
    ensures one_fault { (text : List ℕ) (m n : ℕ) (v w : why.DeckWhy) → Fails text m v → Fails text n w → (m ≡ n) × (v ≡ w) }
{}

/// What a text spells keeps the facts of a deck.
pub fn spelled_decks_keep()
    ensures { (text : List ℕ) (d : decks.Deck) (p : ℕ) → Spells text d p → IsDeck d }
{}

/// The value of a decimal text is the number that the text spells, in lowest terms.
pub fn decimals_keep_their_value()
    ensures value { (w : List ℕ) → SameValue (value_of w) (spelled w) }
    ensures lowest { (w : List ℕ) → IsReduced (value_of w) }
{}
