//! The rows that lines of ROWS name, and what is judged of a row with a value.
ghost use Rattle.std.specs.Prelude.{◌≡◌, ◌≤◌, ◌+◌, List, None, Some, [], ◌∷◌, ◌++◌, IfOk, IfErr, OnOk, length, option_map, slice_get, map};
ghost use Rattle.mps_lex.specs.Shown.{shown};
ghost use Rattle.decks.specs.Numbers.{value_of};
ghost use Rattle.decks.specs.Faults.{is_letter, many_rows_fault, row_fault, entry_fault};
ghost use Rattle.mps_tables.specs.Answers.{Checks, Judges};
ghost use Rattle.decks.specs.Spelling.{RowLine, letter_of, is_n, has_objective, kept, number_behind, number_of_row, row_line, other_rows, row_named};
ghost use Rattle.mps_tables.specs.Seen.{seen_row, shown_row, state_of};

use crate::fault::Fault;
use crate::names::NameMap;
use crate::numbers::parse_number;
use decks::{DeckWhy, Letter};
use lp_base::MOST_ROWS;
use lp_nums::Frac;
use std::alloc::{AllocError, Global};
use std::marker::Model;

/// What a line of ROWS says of its row, with the row's place in the deck, if it has one.
#[derive(Clone, Copy)]
pub struct RowState {
    pub letter: Letter,
    pub line: u32,
    pub number: Option<u32>,
}

/// The rows of a text. Contracts see the list of them.
#[derive(Drop)]
pub struct RowTable<'a> {
    held: NameMap<'a, RowState>,
    others: u32,
    objective: bool,
}

impl<'a> Model for RowTable<'a> {
    ghost use Rattle.std.specs.Prelude.{◌≡◌, ◌≤◌, ◌+◌, List, length, map, if◌then◌else◌};
    ghost use Rattle.decks.specs.Spelling.{RowLine, other_rows, has_objective, kept};

    ghost Value = { List RowLine };

    ghost use Rattle.mps_tables.specs.Seen.{seen_row};
    ghost use Rattle.lp_base.specs.declared.limits.TheConstants.{MOST_ROWS};

    ghost view = { λ t. map seen_row t.held };

    // The counts are those of the rows, of which at most MOST_ROWS are no N rows.
    ghost invariant = { λ t. (t.others ≡ other_rows (map seen_row t.held)) × (t.objective ≡ has_objective (map seen_row t.held))
        × (t.others ≤ MOST_ROWS) × (length (kept (map seen_row t.held)) ≡ t.others + (if t.objective then 1 else 0)) };
}

fn is_letter(word: &[u8]) -> bool
    ensures { result ≡ is_letter word.now }
{
    word == b"N".as_slice()
        || word == b"E".as_slice()
        || word == b"L".as_slice()
        || word == b"G".as_slice()
}

fn letter_of(word: &[u8]) -> Letter
    ensures { result ≡ letter_of word.now }
{
    if word == b"N".as_slice() {
        return Letter::N;
    }
    if word == b"E".as_slice() {
        return Letter::E;
    }
    if word == b"L".as_slice() {
        return Letter::L;
    }
    Letter::G
}

/// Whether this is the letter of N rows.
pub fn is_n(letter: Letter) -> bool
    ensures { result ≡ is_n letter }
{
    match letter {
        Letter::N => true,
        Letter::E | Letter::L | Letter::G => false,
    }
}

impl<'a> RowTable<'a> {
    pub fn new(alloc: Global) -> RowTable<'a>
        ensures { result ≡ [] }
    {
        RowTable {
            held: NameMap::new(alloc),
            others: 0,
            objective: false,
        }
    }

    /// Whether there is an N row.
    pub fn has_objective(&self) -> bool
        ensures { result ≡ has_objective self.now }
    {
        self.objective
    }

    /// The row of a name, if there is one.
    pub fn find(&self, name: &'a [u8]) -> Option<RowState>
        ensures { result ≡ option_map state_of (row_named self.now name.now) }
    {
        self.held.get(name)
    }

    /// The row at a place of ROWS with its name.
    pub fn at(&self, index: usize) -> Option<(&'a [u8], RowState)>
        ensures { option_map shown_row result ≡ slice_get self.now index }
    {
        self.held.at(index)
    }

    /// The number of rows, dropped ones with them.
    pub fn len(&self) -> usize
        ensures len { result ≡ length self.now }
        ensures few { length (kept self.now) ≤ MOST_ROWS + 1 }
    {
        self.held.len()
    }

    fn check_room(&self, letter: &'a [u8]) -> Result<(), DeckWhy>
        ensures fault { Checks result (many_rows_fault self.now letter.now) }
        ensures room { OnOk result ((row : RowLine) → row.letter ≡ letter_of letter.now → other_rows (self.now ++ row ∷ []) ≤ MOST_ROWS) }
    {
        if !is_n(letter_of(letter)) && self.others as usize >= MOST_ROWS {
            return Err(DeckWhy::TooMany);
        }
        Ok(())
    }

    fn check(&self, letter: &'a [u8], name: &'a [u8]) -> Result<(), DeckWhy>
        ensures fault { Checks result (row_fault self.now (letter.now ∷ name.now ∷ [])) }
        ensures fresh { OnOk result (row_named self.now name.now ≡ None) }
        ensures room { OnOk result ((row : RowLine) → row.letter ≡ letter_of letter.now → other_rows (self.now ++ row ∷ []) ≤ MOST_ROWS) }
    {
        if !is_letter(letter) {
            return Err(DeckWhy::RowLetter);
        }
        if self.find(name).is_some() {
            return Err(DeckWhy::NameTwice);
        }
        self.check_room(letter)
    }

    fn number_behind(&self, letter: Letter) -> Option<u32>
        ensures { result ≡ number_behind self.now letter }
    {
        if is_n(letter) && self.objective {
            return None;
        }
        Some(self.others + u32::from(self.objective))
    }

    fn push(&mut self, name: &'a [u8], row: RowState) -> Result<(), AllocError>
        requires fresh { row_named self.old name.now ≡ None }
        requires room { other_rows (self.old ++ seen_row (name.now, row) ∷ []) ≤ MOST_ROWS }
        requires number { row.number ≡ number_behind self.old row.letter }
        ensures { OnOk result (self.new ≡ self.old ++ seen_row (name.now, row) ∷ []) }
    {
        self.held.put(name, row)?;
        if is_n(row.letter) {
            self.objective = true;
        } else {
            self.others += 1;
        }
        Ok(())
    }

    fn parse_row(&mut self, line: u32, letter: &'a [u8], name: &'a [u8]) -> Result<(), Fault>
        ensures fault { Judges result (row_fault self.old (letter.now ∷ name.now ∷ [])) }
        ensures ok { OnOk result (self.new ≡ self.old ++ row_line self.old line (letter.now ∷ name.now ∷ []) ∷ []) }
    {
        self.check(letter, name)?;
        let letter = letter_of(letter);
        let number = self.number_behind(letter);
        self.push(
            name,
            RowState {
                letter,
                line,
                number,
            },
        )?;
        Ok(())
    }

    /// Parses a line of ROWS.
    pub fn parse(&mut self, line: u32, fields: &[&'a [u8]]) -> Result<(), Fault>
        ensures fault { Judges result (row_fault self.old (map shown fields.now)) }
        ensures ok { OnOk result (self.new ≡ self.old ++ row_line self.old line (map shown fields.now) ∷ []) }
    {
        match fields {
            [letter, name] => self.parse_row(line, *letter, *name),
            _ => Err(Fault::Of(DeckWhy::FieldCount)),
        }
    }
}

/// A row that a line names, and the value that stands with it.
#[derive(Clone, Copy)]
pub struct RowValue {
    /// The row's place in the deck, if it has one.
    pub number: Option<u32>,
    pub value: Frac,
}

/// Parses a row with a value, where the row has one already, or not.
pub fn parse_row_value<'a>(
    rows: &RowTable<'a>,
    twice: bool,
    row: &'a [u8],
    value: &'a [u8],
) -> Result<RowValue, DeckWhy>
    ensures right { IfOk result (λ x. entry_fault rows.now twice row.now value.now ≡ None) }
    ensures number { IfOk result (λ x. x.number ≡ number_of_row (row_named rows.now row.now)) }
    ensures value { IfOk result (λ x. x.value ≡ value_of value.now) }
    ensures fault { IfErr result (λ w. entry_fault rows.now twice row.now value.now ≡ Some w) }
{
    let Some(found) = rows.find(row) else {
        return Err(DeckWhy::UnknownName);
    };
    if twice {
        return Err(DeckWhy::EntryTwice);
    }
    let value = parse_number(value)?;
    Ok(RowValue {
        number: found.number,
        value,
    })
}
