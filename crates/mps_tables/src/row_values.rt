//! What lines of RHS or RANGES give for rows.
ghost use Rattle.std.specs.Prelude.{◌≡◌, false, ◌∷◌, [], ◌++◌, OnOk, None, is_some, map, option_map};
ghost use Rattle.mps_lex.specs.Shown.{shown};
ghost use Rattle.decks.specs.Names.{named};
ghost use Rattle.decks.specs.Faults.{◌or◌, set_fault, one_row_value_fault, two_row_values_fault, row_values_fault};
ghost use Rattle.decks.specs.Spelling.{row_value};
ghost use Rattle.mps_tables.specs.Known.{known_row_values, with_row_values, with_set, set_or};
ghost use Rattle.mps_tables.specs.Answers.{Checks, Judges};

use crate::fault::Fault;
use crate::names::NameMap;
use crate::rows::{RowTable, parse_row_value};
use decks::DeckWhy;
use lp_nums::Frac;
use std::alloc::Global;
use std::marker::Model;

/// The rows of a section with their values, and the name of the set.
#[derive(Drop)]
pub struct RowValueTable<'a> {
    set: Option<&'a [u8]>,
    values: NameMap<'a, Frac>,
}

impl<'a> Model for RowValueTable<'a> {
    ghost use Rattle.std.specs.Prelude.{option_map};
    ghost use Rattle.mps_tables.specs.Known.{KnownRowValues};
    ghost use Rattle.mps_lex.specs.Shown.{shown};

    ghost Value = { KnownRowValues };

    ghost view = { λ t. record { set = option_map shown t.set; values = t.values } };
}

/// Whether this is another set than the first one, if there is one.
pub fn check_set(first: Option<&[u8]>, name: &[u8]) -> Result<(), DeckWhy>
    ensures { Checks result (set_fault (option_map shown first.entry) name.now) }
{
    match first {
        None => Ok(()),
        Some(first) => {
            if first != name {
                return Err(DeckWhy::SecondSet);
            }
            Ok(())
        }
    }
}

impl<'a> RowValueTable<'a> {
    pub fn new(alloc: Global) -> RowValueTable<'a>
        ensures { result ≡ known_row_values [] }
    {
        RowValueTable {
            set: None,
            values: NameMap::new(alloc),
        }
    }

    /// The value that is given for a row, if one is.
    pub fn value(&self, row: &'a [u8]) -> Option<Frac>
        ensures { result ≡ named self.now.values row.now }
    {
        self.values.get(row)
    }

    fn parse_set(&mut self, set: &'a [u8]) -> Result<(), Fault>
        ensures fault { Judges result (set_fault self.old.set set.now) }
        ensures ok { OnOk result (self.new ≡ with_set self.old set.now) }
    {
        check_set(self.set, set)?;
        if self.set.is_none() {
            self.set = Some(set);
        }
        Ok(())
    }

    fn add(&mut self, row: &'a [u8], value: Frac) -> Result<(), Fault>
        requires { is_some (named self.old.values row.now) ≡ false }
        ensures fault { Judges result None }
        ensures ok { OnOk result (self.new ≡ record self.old { values = self.old.values ++ (row.now, value) ∷ [] }) }
    {
        self.values.put(row, value)?;
        Ok(())
    }

    fn parse_one(
        &mut self,
        rows: &RowTable<'a>,
        row: &'a [u8],
        value: &'a [u8],
    ) -> Result<(), Fault>
        ensures fault { Judges result (one_row_value_fault rows.now self.old.values row.now value.now) }
        ensures ok { OnOk result (self.new ≡ record self.old { values = self.old.values ++ row_value row.now value.now ∷ [] }) }
    {
        let twice = self.value(row).is_some();
        let found = parse_row_value(rows, twice, row, value)?;
        self.add(row, found.value)
    }

    #[tactic(auto, using(crate::proofs::Judging::first_tells, crate::proofs::Judging::then_judges))]
    fn parse_two(
        &mut self,
        rows: &RowTable<'a>,
        row: &'a [u8],
        value: &'a [u8],
        second: &'a [u8],
        other: &'a [u8],
    ) -> Result<(), Fault>
        ensures fault { Judges result (two_row_values_fault rows.now self.old.values row.now value.now second.now other.now) }
        ensures ok { OnOk result (self.new ≡ record self.old { values = (self.old.values ++ row_value row.now value.now ∷ []) ++ row_value second.now other.now ∷ [] }) }
    {
        self.parse_one(rows, row, value)?;
        self.parse_one(rows, second, other)
    }

    #[tactic(auto, using(crate::proofs::Judging::first_tells, crate::proofs::Judging::then_judges))]
    fn parse_set_one(
        &mut self,
        rows: &RowTable<'a>,
        set: &'a [u8],
        row: &'a [u8],
        value: &'a [u8],
    ) -> Result<(), Fault>
        ensures fault { Judges result (set_fault self.old.set set.now or one_row_value_fault rows.now self.old.values row.now value.now) }
        ensures ok { OnOk result (self.new ≡ record { set = set_or self.old.set set.now; values = self.old.values ++ row_value row.now value.now ∷ [] }) }
    {
        self.parse_set(set)?;
        self.parse_one(rows, row, value)
    }

    #[tactic(auto, using(crate::proofs::Judging::first_tells, crate::proofs::Judging::then_judges))]
    fn parse_set_two(
        &mut self,
        rows: &RowTable<'a>,
        set: &'a [u8],
        row: &'a [u8],
        value: &'a [u8],
        second: &'a [u8],
        other: &'a [u8],
    ) -> Result<(), Fault>
        ensures fault { Judges result (set_fault self.old.set set.now or two_row_values_fault rows.now self.old.values row.now value.now second.now other.now) }
        ensures ok { OnOk result (self.new ≡ record { set = set_or self.old.set set.now; values = (self.old.values ++ row_value row.now value.now ∷ []) ++ row_value second.now other.now ∷ [] }) }
    {
        self.parse_set(set)?;
        self.parse_two(rows, row, value, second, other)
    }

    /// Parses a line of the section, below these rows.
    pub fn parse(&mut self, rows: &RowTable<'a>, fields: &[&'a [u8]]) -> Result<(), Fault>
        ensures fault { Judges result (row_values_fault rows.now self.old.set self.old.values (map shown fields.now)) }
        ensures ok { OnOk result (self.new ≡ with_row_values self.old (map shown fields.now)) }
    {
        match fields {
            [row, value] => self.parse_set_one(rows, b"".as_slice(), *row, *value),
            [set, row, value] => self.parse_set_one(rows, *set, *row, *value),
            [row, value, second, other] => {
                self.parse_set_two(rows, b"".as_slice(), *row, *value, *second, *other)
            }
            [set, row, value, second, other] => {
                self.parse_set_two(rows, *set, *row, *value, *second, *other)
            }
            _ => Err(Fault::Of(DeckWhy::FieldCount)),
        }
    }
}
