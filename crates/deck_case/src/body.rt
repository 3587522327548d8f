//! The rows of a deck in its case.
ghost use Rattle.std.specs.Prelude.{◌≡◌, ◌≢◌, ◌+◌, ◌<◌, ◌++◌, ◌∷◌, [], All, IfErr, IfOk, IsTrue, OnOk, length, map, pos};
ghost use Rattle.std.specs.List.{enumerate_from, range_with_len};
ghost use Rattle.lp_base.specs.Ascending.{ascends_by};
ghost use Rattle.sense.specs.Senses.{signed};
ghost use Rattle.decks.specs.declared.deck.Letter.TheVariants.{N};
ghost use Rattle.decks.specs.Decks.{IsDeck, IsDeckNumber, entries_of, entry_column};
ghost use Rattle.deck_case.specs.CaseParts.{constraints_of_row, cost_of, numbers_of, offset_of, row_constraints, scale_of};
ghost use Rattle.deck_case.specs.DeckCases.{before_row};
ghost use Rattle.deck_case.specs.DeckPoints.{row_at};
ghost use Rattle.deck_case.specs.Steps.{IsFirstOf};
ghost use Rattle.deck_case.specs.Wide.{wide_row, wide_rows};

use crate::CaseFault;
use crate::objective::{Objective, objective_of_row};
use crate::rows::push_row;
use decks::{Deck, Entry, Letter, Row};
use lp_base::Sequence;
use lpcc_case::Constraint;
use std::alloc::Global;

/// The objective, the constraints of the other rows in file order, and for each row the number of
/// the first of its constraints.
#[derive(Drop)]
pub struct Body {
    pub objective: Objective,
    pub constraints: Vec<Constraint>,
    pub firsts: Vec<usize>,
}

impl Body {
    fn empty(alloc: Global) -> Body
        ensures constraints { result.constraints.items ≡ [] }
        ensures firsts { result.firsts.items ≡ [] }
    {
        Body {
            objective: Objective::empty(alloc),
            constraints: Vec::new(alloc),
            firsts: Vec::new(alloc),
        }
    }

    /// Adds a row with its entries.
    fn add(
        &mut self,
        alloc: Global,
        columns: usize,
        row: &Row,
        entries: &[Entry],
    ) -> Result<(), CaseFault>
        requires numbers { All IsDeckNumber (numbers_of row.now.rhs row.now.range entries.now) }
        requires ascending { IsTrue (ascends_by entry_column entries.now) }
        requires named { All (λ e. e.column < columns) entries.now }
        ensures constraints { OnOk result (self.new.constraints.items
            ≡ self.old.constraints.items ++ constraints_of_row entries.now row.now) }
        ensures firsts { OnOk result (self.new.firsts.items
            ≡ self.old.firsts.items ++ length self.old.constraints.items ∷ []) }
        ensures other { OnOk result (row.now.letter ≢ N → self.new.objective ≡ self.old.objective) }
        ensures cost { OnOk result (row.now.letter ≡ N
            → self.new.objective.cost ≡ cost_of columns entries.now row.now) }
        ensures scale { OnOk result (row.now.letter ≡ N
            → self.new.objective.scale ≡ pos (scale_of entries.now row.now)) }
        ensures offset { OnOk result (row.now.letter ≡ N
            → self.new.objective.offset ≡ offset_of entries.now row.now) }
        ensures narrow { OnOk result (wide_row entries.now row.now ≡ []) }
        ensures err { IfErr result (IsFirstOf (wide_row entries.now row.now)) }
    {
        self.firsts.push(self.constraints.len())?;
        match row.letter {
            Letter::N => self.objective = objective_of_row(alloc, columns, row, entries)?,
            Letter::E | Letter::L | Letter::G => {
                push_row(alloc, row, entries, &mut self.constraints)?;
            }
        }
        Ok(())
    }

    // The rows of a deck and its objective as it stands, where `entries` has the entries of each row.
    fn of_rows(alloc: Global, deck: &Deck, entries: &[Sequence<Entry>]) -> Result<Body, CaseFault>
        requires deck { IsDeck deck.now }
        requires entries { entries.now
            ≡ map (entries_of deck.now.entries) (range_with_len 0 (length deck.now.rows)) }
        ensures constraints { IfOk result (λ made. made.constraints.items ≡ row_constraints deck.now) }
        ensures firsts { IfOk result (λ made. made.firsts.items
            ≡ map (before_row deck.now) (range_with_len 0 (length deck.now.rows))) }
        ensures cost { IfOk result (λ made. made.objective.cost
            ≡ cost_of (length deck.now.columns) (entries_of deck.now.entries deck.now.objective)
            (row_at deck.now deck.now.objective)) }
        ensures scale { IfOk result (λ made. made.objective.scale
            ≡ pos (scale_of (entries_of deck.now.entries deck.now.objective)
            (row_at deck.now deck.now.objective))) }
        ensures offset { IfOk result (λ made. made.objective.offset
            ≡ offset_of (entries_of deck.now.entries deck.now.objective)
            (row_at deck.now deck.now.objective)) }
        ensures narrow { IfOk result (λ made. wide_rows deck.now.entries (enumerate_from 0 deck.now.rows) ≡ []) }
        ensures err { IfErr result (IsFirstOf (wide_rows deck.now.entries (enumerate_from 0 deck.now.rows))) }
    {
        let columns = deck.columns.len();
        let mut made = Body::empty(alloc);
        for (number, row) in deck.rows.as_slice().iter().enumerate() {
            made.add(alloc, columns, row, entries[number].as_slice())?;
        }
        Ok(made)
    }

    /// The rows of a deck and its objective as it is to be least, where `entries` has the entries of
    /// each row.
    pub fn of_deck(
        alloc: Global,
        deck: &Deck,
        entries: &[Sequence<Entry>],
    ) -> Result<Body, CaseFault>
        requires deck { IsDeck deck.now }
        requires entries { entries.now
            ≡ map (entries_of deck.now.entries) (range_with_len 0 (length deck.now.rows)) }
        ensures constraints { IfOk result (λ made. made.constraints.items ≡ row_constraints deck.now) }
        ensures firsts { IfOk result (λ made. made.firsts.items
            ≡ map (before_row deck.now) (range_with_len 0 (length deck.now.rows))) }
        ensures cost { IfOk result (λ made. made.objective.cost
            ≡ map (signed deck.now.sense) (cost_of (length deck.now.columns)
            (entries_of deck.now.entries deck.now.objective) (row_at deck.now deck.now.objective))) }
        ensures scale { IfOk result (λ made. made.objective.scale
            ≡ pos (scale_of (entries_of deck.now.entries deck.now.objective)
            (row_at deck.now deck.now.objective))) }
        ensures offset { IfOk result (λ made. made.objective.offset
            ≡ signed deck.now.sense (offset_of (entries_of deck.now.entries deck.now.objective)
            (row_at deck.now deck.now.objective))) }
        ensures narrow { IfOk result (λ made. wide_rows deck.now.entries (enumerate_from 0 deck.now.rows) ≡ []) }
        ensures err { IfErr result (IsFirstOf (wide_rows deck.now.entries (enumerate_from 0 deck.now.rows))) }
    {
        let mut made = Body::of_rows(alloc, deck, entries)?;
        made.objective.turn(alloc, deck.sense)?;
        Ok(made)
    }
}
