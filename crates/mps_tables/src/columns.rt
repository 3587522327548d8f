//! The columns of a text and the entries of the matrix.
ghost use Rattle.std.specs.Prelude.{◌≡◌, ◌≤◌, ◌+◌, None, Some, ◌∷◌, [], ◌++◌, IfOk, IfErr, OnOk, length, map};
ghost use Rattle.mps_lex.specs.Shown.{shown};
ghost use Rattle.decks.specs.Names.{has, place, add_name};
ghost use Rattle.decks.specs.Faults.{◌or◌, marker_fault, split_fault, entry_fault, two_entries_fault, full_fault, column_words_fault, column_fault};
ghost use Rattle.decks.specs.Numbers.{value_of};
ghost use Rattle.decks.specs.Spelling.{field, entry_at, number_of_row, row_named};
ghost use Rattle.mps_tables.specs.Known.{known_columns, rows_here, with_column};
ghost use Rattle.mps_tables.specs.Answers.{Checks, Judges};

use crate::fault::Fault;
use crate::names::Names;
use crate::rows::{RowTable, RowValue, parse_row_value};
use decks::{DeckWhy, Entry};
use lp_base::{MOST_COLUMNS, MOST_ENTRIES, Sequence};
use std::alloc::Global;
use std::marker::Model;
use std::mem::replace;

/// The columns, the rows in which the last one has entries, how many entries the text names, and
/// the entries of the deck.
pub struct ColumnTable<'a> {
    names: Names<'a>,
    here: Names<'a>,
    count: u32,
    entries: Sequence<Entry>,
}

/// By a call, which keeps the models of the functions small that own one.
impl<'a> Drop for ColumnTable<'a> {
    fn drop(self) {
        let ColumnTable {
            names: _,
            here: _,
            count: _,
            entries: _,
        } = self;
    }
}

impl<'a> Model for ColumnTable<'a> {
    ghost use Rattle.std.specs.Prelude.{◌≤◌, length};
    ghost use Rattle.lp_base.specs.declared.limits.TheConstants.{MOST_COLUMNS, MOST_ENTRIES};
    ghost use Rattle.mps_tables.specs.Known.{KnownColumns};

    ghost Value = { KnownColumns };

    ghost view = { λ t. record { names = t.names; here = t.here; count = t.count; entries = t.entries } };

    ghost invariant = { λ t. (length t.names ≤ MOST_COLUMNS) × (t.count ≤ MOST_ENTRIES) };
}

fn check_marker(fields: &[&[u8]]) -> Result<(), DeckWhy>
    ensures { Checks result (marker_fault (map shown fields.now)) }
{
    match fields {
        [_, row, ..] => {
            if *row == b"'MARKER'".as_slice() {
                return Err(DeckWhy::IntegerMarker);
            }
            Ok(())
        }
        _ => Ok(()),
    }
}

impl<'a> ColumnTable<'a> {
    pub fn new(alloc: Global) -> ColumnTable<'a>
        ensures { result ≡ known_columns [] [] }
    {
        ColumnTable {
            names: Names::new(alloc),
            here: Names::new(alloc),
            count: 0,
            entries: Sequence::new(alloc),
        }
    }

    /// The names of the columns.
    pub fn names(&self) -> &Names<'a>
        ensures names { result.now ≡ self.now.names }
        ensures few { length result.now ≤ MOST_COLUMNS }
    {
        &self.names
    }

    /// Takes the entries out.
    pub fn take_entries(&mut self, alloc: Global) -> Sequence<Entry>
        ensures entries { result ≡ self.old.entries }
        ensures rest { self.new ≡ record self.old { entries = [] } }
    {
        replace(&mut self.entries, Sequence::new(alloc))
    }

    // Judges whether the column's lines stand together, and gives its place. What `here` holds is
    // then of this column.
    fn begin(&mut self, column: &'a [u8]) -> Result<usize, DeckWhy>
        ensures right { OnOk result (split_fault self.old.names column.now ≡ None) }
        ensures index { IfOk result (λ i. i ≡ place self.old.names column.now) }
        ensures here { OnOk result (self.new ≡ record self.old { here = rows_here self.old column.now }) }
        ensures fault { IfErr result (λ w. split_fault self.old.names column.now ≡ Some w) }
    {
        let index = self.names.place(column);
        if index + 1 < self.names.len() {
            return Err(DeckWhy::ColumnSplit);
        }
        if self.names.is_new(index, column) {
            self.here.clear();
        }
        Ok(index)
    }

    // Judges a row with its value in the column that `here` is of, and notes the row there.
    fn parse_here(
        &mut self,
        rows: &RowTable<'a>,
        row: &'a [u8],
        value: &'a [u8],
    ) -> Result<RowValue, Fault>
        ensures fault { Judges result (entry_fault rows.now (has self.old.here row.now) row.now value.now) }
        ensures number { IfOk result (λ x. x.number ≡ number_of_row (row_named rows.now row.now)) }
        ensures value { IfOk result (λ x. x.value ≡ value_of value.now) }
        ensures ok { OnOk result (self.new ≡ record self.old { here = self.old.here ++ row.now ∷ [] }) }
    {
        let found = parse_row_value(rows, self.here.has(row), row, value)?;
        self.here.push(row)?;
        Ok(found)
    }

    fn check_room(&self, index: usize, column: &'a [u8], more: u32) -> Result<(), DeckWhy>
        requires few { more ≤ 2 }
        requires index { index ≡ place self.now.names column.now }
        ensures fault { Checks result (full_fault self.now.names self.now.count column.now more) }
        ensures names { OnOk result (length (add_name self.now.names column.now) ≤ MOST_COLUMNS) }
        ensures count { OnOk result (self.now.count + more ≤ MOST_ENTRIES) }
    {
        if (self.names.is_new(index, column) && self.names.len() >= MOST_COLUMNS)
            || (self.count + more) as usize > MOST_ENTRIES
        {
            return Err(DeckWhy::TooMany);
        }
        Ok(())
    }

    // Adds the column's name, if it is new.
    fn add_name(&mut self, index: usize, column: &'a [u8]) -> Result<(), Fault>
        requires index { index ≡ place self.old.names column.now }
        requires room { length (add_name self.old.names column.now) ≤ MOST_COLUMNS }
        ensures fault { Judges result None }
        ensures ok { OnOk result (self.new ≡ record self.old { names = add_name self.old.names column.now }) }
    {
        if self.names.is_new(index, column) {
            self.names.push(column)?;
        }
        Ok(())
    }

    // Adds the entry of a row, unless the row is dropped.
    fn add(&mut self, column: u32, found: RowValue) -> Result<(), Fault>
        requires { self.old.count + 1 ≤ MOST_ENTRIES }
        ensures fault { Judges result None }
        ensures ok { OnOk result (self.new ≡ record self.old { count = self.old.count + 1; entries = self.old.entries ++ entry_at column found.value found.number }) }
    {
        self.count += 1;
        if let Some(row) = found.number {
            self.entries.push(Entry {
                column,
                row,
                value: found.value,
            })?;
        }
        Ok(())
    }

    // Judges the entry of a line, behind the column.
    #[tactic(auto, using(crate::proofs::Judging::first_tells, crate::proofs::Judging::then_judges))]
    fn judge_one(
        &mut self,
        rows: &RowTable<'a>,
        index: usize,
        column: &'a [u8],
        row: &'a [u8],
        value: &'a [u8],
    ) -> Result<RowValue, Fault>
        requires index { index ≡ place self.old.names column.now }
        ensures fault { Judges result (entry_fault rows.now (has self.old.here row.now) row.now value.now or full_fault self.old.names self.old.count column.now 1) }
        ensures number { IfOk result (λ x. x.number ≡ number_of_row (row_named rows.now row.now)) }
        ensures value { IfOk result (λ x. x.value ≡ value_of value.now) }
        ensures ok { OnOk result (self.new ≡ record self.old { here = self.old.here ++ row.now ∷ [] }) }
        ensures few { OnOk result (length (add_name self.old.names column.now) ≤ MOST_COLUMNS) }
        ensures room { OnOk result (self.old.count + 1 ≤ MOST_ENTRIES) }
    {
        let found = self.parse_here(rows, row, value)?;
        self.check_room(index, column, 1)?;
        Ok(found)
    }

    // Adds the column, if it is new, and its entry.
    fn add_one(&mut self, index: usize, column: &'a [u8], found: RowValue) -> Result<(), Fault>
        requires index { index ≡ place self.old.names column.now }
        requires few { length (add_name self.old.names column.now) ≤ MOST_COLUMNS }
        requires room { self.old.count + 1 ≤ MOST_ENTRIES }
        ensures fault { Judges result None }
        ensures ok { OnOk result (self.new ≡ record self.old { names = add_name self.old.names column.now; count = self.old.count + 1; entries = self.old.entries ++ entry_at index found.value found.number }) }
    {
        self.add_name(index, column)?;
        self.add(index as u32, found)
    }

    #[tactic(auto, using(crate::proofs::Judging::first_tells, crate::proofs::Judging::then_judges))]
    fn parse_one(
        &mut self,
        rows: &RowTable<'a>,
        column: &'a [u8],
        row: &'a [u8],
        value: &'a [u8],
    ) -> Result<(), Fault>
        ensures fault { Judges result (column_words_fault rows.now self.old.names (rows_here self.old column.now) self.old.count (column.now ∷ row.now ∷ value.now ∷ [])) }
        ensures ok { OnOk result (self.new ≡ with_column rows.now self.old (column.now ∷ row.now ∷ value.now ∷ [])) }
    {
        let index = self.begin(column)?;
        let found = self.judge_one(rows, index, column, row, value)?;
        self.add_one(index, column, found)
    }

    // Judges the two entries of a line, behind the column.
    #[tactic(auto, using(crate::proofs::Judging::first_tells, crate::proofs::Judging::then_judges))]
    fn judge_two(
        &mut self,
        rows: &RowTable<'a>,
        row: &'a [u8],
        value: &'a [u8],
        second: &'a [u8],
        other: &'a [u8],
    ) -> Result<(RowValue, RowValue), Fault>
        ensures fault { Judges result (two_entries_fault rows.now self.old.here row.now value.now second.now other.now) }
        ensures number { IfOk result (λ x. x.0.number ≡ number_of_row (row_named rows.now row.now)) }
        ensures value { IfOk result (λ x. x.0.value ≡ value_of value.now) }
        ensures second_number { IfOk result (λ x. x.1.number ≡ number_of_row (row_named rows.now second.now)) }
        ensures second_value { IfOk result (λ x. x.1.value ≡ value_of other.now) }
        ensures ok { OnOk result (self.new ≡ record self.old { here = (self.old.here ++ row.now ∷ []) ++ second.now ∷ [] }) }
    {
        let first = self.parse_here(rows, row, value)?;
        let found = self.parse_here(rows, second, other)?;
        Ok((first, found))
    }

    // Adds the column, if it is new, and its entries.
    fn add_two(
        &mut self,
        index: usize,
        column: &'a [u8],
        first: RowValue,
        second: RowValue,
    ) -> Result<(), Fault>
        requires index { index ≡ place self.old.names column.now }
        requires few { length (add_name self.old.names column.now) ≤ MOST_COLUMNS }
        requires room { self.old.count + 2 ≤ MOST_ENTRIES }
        ensures fault { Judges result None }
        ensures ok { OnOk result (self.new ≡ record self.old { names = add_name self.old.names column.now; count = (self.old.count + 1) + 1; entries = (self.old.entries ++ entry_at index first.value first.number) ++ entry_at index second.value second.number }) }
    {
        self.add_name(index, column)?;
        self.add(index as u32, first)?;
        self.add(index as u32, second)
    }

    // Judges and adds the entries of a line, behind the column.
    #[tactic(auto, using(crate::proofs::Judging::first_tells, crate::proofs::Judging::then_judges))]
    fn parse_both(
        &mut self,
        rows: &RowTable<'a>,
        index: usize,
        column: &'a [u8],
        row: &'a [u8],
        value: &'a [u8],
        second: &'a [u8],
        other: &'a [u8],
    ) -> Result<(), Fault>
        requires index { index ≡ place self.old.names column.now }
        ensures fault { Judges result (two_entries_fault rows.now self.old.here row.now value.now second.now other.now or full_fault self.old.names self.old.count column.now 2) }
        ensures ok { OnOk result (self.new ≡ record {
          names = add_name self.old.names column.now;
          here = (self.old.here ++ row.now ∷ []) ++ second.now ∷ [];
          count = (self.old.count + 1) + 1;
          entries = (self.old.entries ++ entry_at index (value_of value.now) (number_of_row (row_named rows.now row.now))) ++ entry_at index (value_of other.now) (number_of_row (row_named rows.now second.now));
        }) }
    {
        let (first, found) = self.judge_two(rows, row, value, second, other)?;
        self.check_room(index, column, 2)?;
        self.add_two(index, column, first, found)
    }

    #[tactic(auto, using(crate::proofs::Judging::first_tells, crate::proofs::Judging::then_judges))]
    fn parse_two(
        &mut self,
        rows: &RowTable<'a>,
        column: &'a [u8],
        row: &'a [u8],
        value: &'a [u8],
        second: &'a [u8],
        other: &'a [u8],
    ) -> Result<(), Fault>
        ensures fault { Judges result (column_words_fault rows.now self.old.names (rows_here self.old column.now) self.old.count (column.now ∷ row.now ∷ value.now ∷ second.now ∷ other.now ∷ [])) }
        ensures ok { OnOk result (self.new ≡ with_column rows.now self.old (column.now ∷ row.now ∷ value.now ∷ second.now ∷ other.now ∷ [])) }
    {
        let index = self.begin(column)?;
        self.parse_both(rows, index, column, row, value, second, other)
    }

    fn parse_words(&mut self, rows: &RowTable<'a>, fields: &[&'a [u8]]) -> Result<(), Fault>
        ensures fault { Judges result (column_words_fault rows.now self.old.names (rows_here self.old (field 0 (map shown fields.now))) self.old.count (map shown fields.now)) }
        ensures ok { OnOk result (self.new ≡ with_column rows.now self.old (map shown fields.now)) }
    {
        match fields {
            [column, row, value] => self.parse_one(rows, *column, *row, *value),
            [column, row, value, second, other] => {
                self.parse_two(rows, *column, *row, *value, *second, *other)
            }
            _ => Err(Fault::Of(DeckWhy::FieldCount)),
        }
    }

    /// Parses a line of COLUMNS, below these rows.
    #[tactic(auto, using(crate::proofs::Judging::first_tells, crate::proofs::Judging::then_judges))]
    pub fn parse(&mut self, rows: &RowTable<'a>, fields: &[&'a [u8]]) -> Result<(), Fault>
        ensures fault { Judges result (column_fault rows.now self.old.names (rows_here self.old (field 0 (map shown fields.now))) self.old.count (map shown fields.now)) }
        ensures ok { OnOk result (self.new ≡ with_column rows.now self.old (map shown fields.now)) }
    {
        check_marker(fields)?;
        self.parse_words(rows, fields)
    }
}
