//! The reader's tables.
ghost use Rattle.std.specs.Prelude.{◌≡◌, ◌≤◌, ◌+◌, ◌∷◌, ◌++◌, if◌then◌else◌, false, OnOk, IfOk, None, [], map, length, position, unwrap_or};
ghost use Rattle.std.specs.List.{position_or_len};
ghost use Rattle.mps_lex.specs.Kinds.{fields};
ghost use Rattle.mps_lex.specs.Shown.{shown};
ghost use Rattle.mps_lex.specs.First.{HoldsFirst};
ghost use Rattle.mps_lex.specs.declared.line.Section.TheVariants.{Groups};
ghost use Rattle.decks.specs.Sections.{is_open};
ghost use Rattle.decks.specs.Spelling.{is_n, has_objective, kept, deck_row};
ghost use Rattle.mps_tables.specs.Known.{bounds_with, with_bound};
ghost use Rattle.mps_tables.specs.Answers.{Judges};
ghost use Rattle.decks.specs.Senses.{earlier, sense_on_head, sense_on_line};
ghost use Rattle.mps_pairs.specs.Groups.{known_group_fault, with_group};
ghost use Rattle.mps_pairs.specs.Known.{known, known_fault, with_pair, with_data, with_head, deck_from};
ghost use Rattle.decks.specs.Bounds.{below_zero_line};
ghost use Rattle.decks.specs.Faults.{bound_fault, pair_fault, sense_fault};
ghost use Rattle.mps_tables.specs.Seen.{seen_row};
ghost use Rattle.decks.specs.Names.{named};
ghost use Rattle.decks.specs.Decks.{zero};

use crate::groups::GroupTable;
use crate::pairs::PairTable;
use crate::senses::sense_of_line;
use decks::{Column, Deck, DeckWhy, Letter, Row};
use lp_base::{MOST_ROWS, Sequence};
use lp_nums::Frac;
use mps_lex::{Section, SplitLine};
use mps_tables::{BoundTable, ColumnTable, Fault, Names, RowState, RowTable, RowValueTable, is_n};
use sense::Sense;
use std::alloc::{AllocError, Global};
use std::marker::Model;

/// What is known of the lines so far.
#[derive(Drop)]
pub struct Tables<'a> {
    sense: Option<Sense>,
    rows: RowTable<'a>,
    columns: ColumnTable<'a>,
    rights: RowValueTable<'a>,
    ranges: RowValueTable<'a>,
    bounds: BoundTable<'a>,
    pairs: PairTable<'a>,
    groups: GroupTable<'a>,
}

impl<'a> Model for Tables<'a> {
    ghost use Rattle.mps_pairs.specs.Known.{Known};

    ghost Value = { Known };

    ghost view = { λ t. record { sense = t.sense; rows = t.rows; columns = t.columns; rights = t.rights; ranges = t.ranges; bounds = t.bounds; pairs = t.pairs; groups = t.groups } };
}

// The right-hand side of a row, or 0.
fn right_of<'a>(rights: &RowValueTable<'a>, name: &'a [u8]) -> Frac
    ensures { result ≡ unwrap_or (named rights.now.values name.now) zero }
{
    match rights.value(name) {
        Some(value) => value,
        None => Frac::whole(0),
    }
}

// The range of a row, if it has one.
fn range_of<'a>(ranges: &RowValueTable<'a>, name: &'a [u8], letter: Letter) -> Option<Frac>
    ensures { result ≡ (if is_n letter then None else named ranges.now.values name.now) }
{
    if is_n(letter) {
        return None;
    }
    ranges.value(name)
}

// Adds a row, if it is one of the deck.
fn add_row<'a>(
    found: &mut Sequence<Row>,
    rights: &RowValueTable<'a>,
    ranges: &RowValueTable<'a>,
    name: &'a [u8],
    row: RowState,
) -> Result<(), AllocError>
    ensures { OnOk result (found.new ≡ found.old ++ map (deck_row rights.now.values ranges.now.values) (kept (seen_row (name.now, row) ∷ []))) }
{
    if row.number.is_some() {
        let rhs = right_of(rights, name);
        let range = range_of(ranges, name, row.letter);
        found.push(Row {
            letter: row.letter,
            line: row.line,
            rhs,
            range,
        })?;
    }
    Ok(())
}

fn deck_rows<'a>(
    alloc: Global,
    rows: &RowTable<'a>,
    rights: &RowValueTable<'a>,
    ranges: &RowValueTable<'a>,
) -> Result<Sequence<Row>, AllocError>
    ensures rows { IfOk result (λ found. found ≡ map (deck_row rights.now.values ranges.now.values) (kept rows.now)) }
    ensures few { IfOk result (λ found. length found ≤ MOST_ROWS + 1) }
{
    let mut found = Sequence::new(alloc);
    for index in 0..rows.len() {
        if let Some((name, row)) = rows.at(index) {
            add_row(&mut found, rights, ranges, name, row)?;
        }
    }
    Ok(found)
}

fn objective_in(rows: &[Row]) -> Option<usize>
    ensures { result ≡ position (λ r. is_n r.letter) rows.now }
{
    rows.iter().position(|row| is_n(row.letter))
}

// The place of the first N row, or the number of rows.
fn objective_of(rows: &[Row]) -> usize
    ensures place { result ≡ position_or_len (λ r. is_n r.letter) rows.now }
    ensures within { result ≤ length rows.now }
{
    objective_in(rows).unwrap_or(rows.len())
}

fn deck_columns<'a>(
    alloc: Global,
    names: &Names<'a>,
    bounds: &BoundTable<'a>,
) -> Result<Sequence<Column>, AllocError>
    ensures { IfOk result (λ found. found ≡ map (bounds_with bounds.now.columns) names.now) }
{
    let mut found = Sequence::new(alloc);
    for index in 0..names.len() {
        if let Some(name) = names.at(index) {
            let column = bounds.bounds(name);
            found.push(Column {
                lower: column.lower,
                upper: column.upper,
                fixed: column.fixed,
            })?;
        }
    }
    Ok(found)
}

// Whether GROUPS stands open.
fn is_groups(current: Option<Section>) -> bool
    ensures { result ≡ is_open Groups current }
{
    matches!(current, Some(Section::Groups))
}

impl<'a> Tables<'a> {
    pub fn new(alloc: Global) -> Tables<'a>
        ensures { result ≡ known [] }
    {
        Tables {
            sense: None,
            rows: RowTable::new(alloc),
            columns: ColumnTable::new(alloc),
            rights: RowValueTable::new(alloc),
            ranges: RowValueTable::new(alloc),
            bounds: BoundTable::new(alloc),
            pairs: PairTable::new(alloc),
            groups: GroupTable::new(alloc),
        }
    }

    /// Whether there is an N row.
    pub fn has_objective(&self) -> bool
        ensures { result ≡ has_objective self.now.rows }
    {
        self.rows.has_objective()
    }

    /// The least line that set an upper bound below 0 of a column whose lower bound no line has set
    /// or removed.
    pub fn below_zero(&self) -> Option<u32>
        ensures { result ≡ below_zero_line (map (λ e. e.1) self.now.bounds.columns) }
    {
        self.bounds.below_zero()
    }

    fn parse_bound(&mut self, number: u32, fields: &[&'a [u8]]) -> Result<(), Fault>
        ensures fault { Judges result (bound_fault self.old.columns.names self.old.bounds.set (map shown fields.now)) }
        ensures ok { OnOk result (self.new ≡ record self.old { bounds = with_bound self.old.bounds number (map shown fields.now) }) }
    {
        self.bounds.parse(self.columns.names(), number, fields)
    }

    fn parse_pair(&mut self, fields: &[&'a [u8]]) -> Result<(), Fault>
        ensures fault { Judges result (pair_fault self.old.rows self.old.columns.names (bounds_with self.old.bounds.columns) self.old.pairs.names (map shown fields.now)) }
        ensures ok { OnOk result (self.new ≡ record self.old { pairs = with_pair self.old.rows self.old.columns.names self.old.pairs (map shown fields.now) }) }
    {
        self.pairs
            .parse(&self.rows, self.columns.names(), &self.bounds, fields)
    }

    fn parse_group(&mut self, alloc: Global, text: &'a [u8]) -> Result<(), Fault>
        ensures fault { Judges result (known_group_fault self.old.rows self.old.columns.names (bounds_with self.old.bounds.columns) self.old.groups (length self.old.pairs.names) (fields text.now)) }
        ensures ok { OnOk result (self.new ≡ record self.old { groups = with_group self.old.rows self.old.columns.names self.old.groups (fields text.now) }) }
    {
        self.groups.parse(
            alloc,
            &self.rows,
            self.columns.names(),
            &self.bounds,
            self.pairs.len(),
            text,
        )
    }

    fn parse_sense(&mut self, fields: &[&'a [u8]]) -> Result<(), Fault>
        ensures fault { Judges result (sense_fault self.old.sense (map shown fields.now)) }
        ensures ok { OnOk result (self.new ≡ record self.old { sense = earlier self.old.sense (sense_on_line (map shown fields.now)) }) }
    {
        match sense_of_line(self.sense, fields) {
            Ok(sense) => {
                self.sense = Some(sense);
                Ok(())
            }
            Err(why) => Err(Fault::Of(why)),
        }
    }

    /// Notes the sense that a head names, where none is named before it.
    pub fn note(&mut self, sense: Option<Sense>)
        ensures { self.new ≡ record self.old { sense = earlier self.old.sense sense } }
    {
        if self.sense.is_none() {
            self.sense = sense;
        }
    }

    // Takes the fields of a data line of what stands open, if that is not GROUPS.
    fn parse_fields(
        &mut self,
        current: Option<Section>,
        number: u32,
        fields: &[&'a [u8]],
    ) -> Result<(), Fault>
        requires { is_open Groups current ≡ false }
        ensures fault { Judges result (known_fault current self.old (map shown fields.now)) }
        ensures ok { OnOk result (self.new ≡ with_data current self.old number (map shown fields.now)) }
    {
        match current {
            Some(Section::ObjSense) => self.parse_sense(fields),
            Some(Section::Rows) => self.rows.parse(number, fields),
            Some(Section::Columns) => self.columns.parse(&self.rows, fields),
            Some(Section::Rhs) => self.rights.parse(&self.rows, fields),
            Some(Section::Ranges) => self.ranges.parse(&self.rows, fields),
            Some(Section::Bounds) => self.parse_bound(number, fields),
            Some(Section::Pairs) => self.parse_pair(fields),
            None | Some(Section::Name | Section::Groups | Section::Endata) => {
                Err(Fault::Of(DeckWhy::SectionOrder))
            }
        }
    }

    /// Takes a data line of what stands open, with these bytes.
    pub fn parse_data(
        &mut self,
        alloc: Global,
        current: Option<Section>,
        line: &SplitLine<'a>,
        text: &'a [u8],
    ) -> Result<(), Fault>
        requires { HoldsFirst line.now text.now }
        ensures fault { Judges result (known_fault current self.old (fields text.now)) }
        ensures ok { OnOk result (self.new ≡ with_data current self.old line.now.number (fields text.now)) }
    {
        if is_groups(current) {
            return self.parse_group(alloc, text);
        }
        self.parse_fields(current, line.number, &line.fields)
    }

    /// Takes the deck out, with the line of ENDATA.
    pub fn take_deck(&mut self, alloc: Global, end_line: u32) -> Result<Deck, AllocError>
        ensures { IfOk result (λ d. d ≡ deck_from self.old end_line) }
    {
        let rows = deck_rows(alloc, &self.rows, &self.rights, &self.ranges)?;
        let columns = deck_columns(alloc, self.columns.names(), &self.bounds)?;
        Ok(Deck {
            sense: self.sense.unwrap_or(Sense::Min),
            objective: objective_of(rows.as_slice()) as u32,
            rows,
            columns,
            entries: self.columns.take_entries(alloc),
            pairs: self.pairs.take_pairs(alloc),
            groups: self.groups.take_groups(alloc),
            end_line,
        })
    }
}
