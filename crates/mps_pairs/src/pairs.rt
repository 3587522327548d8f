//! Pairs of quantities.
ghost use Rattle.std.specs.Prelude.{◌≡◌, ◌≤◌, ◌∷◌, [], ◌++◌, false, IfOk, IfErr, OnOk, None, Some, length, map, unwrap_or};
ghost use Rattle.mps_lex.specs.Shown.{shown};
ghost use Rattle.decks.specs.declared.deck.Quantity.TheVariants.{Col, Upc, Row};
ghost use Rattle.decks.specs.Names.{has, place};
ghost use Rattle.decks.specs.Numbers.{is_zero};
ghost use Rattle.decks.specs.Spelling.{is_col, is_upc, number_of_row, row_named, quantity_of};
ghost use Rattle.decks.specs.Decks.{is_inequality};
ghost use Rattle.decks.specs.Faults.{◌or◌, is_kind, is_free_from_zero, column_quantity_fault, has_upper, upper_quantity_fault, row_quantity_fault, quantity_fault, pair_front_fault, quantities_fault, many_pairs_fault, pair_fault};
ghost use Rattle.mps_pairs.specs.Fields.{pair_words};
ghost use Rattle.mps_tables.specs.Known.{bounds_with};
ghost use Rattle.mps_pairs.specs.Known.{known_pairs, with_pair};
ghost use Rattle.mps_tables.specs.Answers.{Checks, Judges};

use decks::{Column, DeckWhy, Letter, PairLine, Quantity};
use lp_base::{MOST_COLUMNS, MOST_PAIRS, Sequence};
use lp_nums::Frac;
use mps_tables::{BoundTable, Fault, Names, RowTable};
use std::alloc::Global;
use std::marker::Model;
use std::mem::replace;

/// The names of the pairs, and the pairs.
pub struct PairTable<'a> {
    names: Names<'a>,
    pairs: Sequence<PairLine>,
}

/// By a call, which keeps the models of the functions small that own one.
impl<'a> Drop for PairTable<'a> {
    fn drop(self) {
        let PairTable { names: _, pairs: _ } = self;
    }
}

impl<'a> Model for PairTable<'a> {
    ghost use Rattle.mps_pairs.specs.Known.{KnownPairs};

    ghost Value = { KnownPairs };

    ghost view = { λ t. record { names = t.names; pairs = t.pairs } };
}

/// The fields of a line of PAIRS: a name, and twice a kind with a name.
#[derive(Clone, Copy)]
pub struct PairFields<'a> {
    name: &'a [u8],
    kind: &'a [u8],
    first: &'a [u8],
    other: &'a [u8],
    second: &'a [u8],
}

fn is_col(word: &[u8]) -> bool
    ensures { result ≡ is_col word.now }
{
    word == b"COL".as_slice()
}

fn is_upc(word: &[u8]) -> bool
    ensures { result ≡ is_upc word.now }
{
    word == b"UPC".as_slice()
}

/// Whether the word is a kind of a quantity.
pub fn is_kind(word: &[u8]) -> bool
    ensures { result ≡ is_kind word.now }
{
    word == b"COL".as_slice() || word == b"ROW".as_slice() || word == b"UPC".as_slice()
}

fn is_inequality(letter: Letter) -> bool
    ensures { result ≡ is_inequality letter }
{
    match letter {
        Letter::L | Letter::G => true,
        Letter::N | Letter::E => false,
    }
}

// Whether there is an end, and it is 0.
fn is_zero(end: Option<Frac>) -> bool
    ensures { result ≡ is_zero end }
{
    match end {
        None => false,
        Some(value) => value.num() == 0,
    }
}

fn is_free_from_zero(column: Column) -> bool
    ensures { result ≡ is_free_from_zero column }
{
    !column.fixed && is_zero(column.lower.value)
}

fn column_quantity<'a>(
    columns: &Names<'a>,
    bounds: &BoundTable<'a>,
    name: &'a [u8],
) -> Result<Quantity, DeckWhy>
    requires { length columns.now ≤ MOST_COLUMNS }
    ensures right { IfOk result (λ q. column_quantity_fault columns.now (bounds_with bounds.now.columns) name.now ≡ None) }
    ensures value { IfOk result (λ q. q ≡ Col (place columns.now name.now)) }
    ensures fault { IfErr result (λ w. column_quantity_fault columns.now (bounds_with bounds.now.columns) name.now ≡ Some w) }
{
    let index = columns.place(name);
    if columns.is_new(index, name) {
        return Err(DeckWhy::UnknownName);
    }
    if !is_free_from_zero(bounds.bounds(name)) {
        return Err(DeckWhy::PairLower);
    }
    Ok(Quantity::Col(index as u32))
}

fn has_upper(column: Column) -> bool
    ensures { result ≡ has_upper column }
{
    !column.fixed && column.upper.value.is_some()
}

fn upper_quantity<'a>(
    columns: &Names<'a>,
    bounds: &BoundTable<'a>,
    name: &'a [u8],
) -> Result<Quantity, DeckWhy>
    requires { length columns.now ≤ MOST_COLUMNS }
    ensures right { IfOk result (λ q. upper_quantity_fault columns.now (bounds_with bounds.now.columns) name.now ≡ None) }
    ensures value { IfOk result (λ q. q ≡ Upc (place columns.now name.now)) }
    ensures fault { IfErr result (λ w. upper_quantity_fault columns.now (bounds_with bounds.now.columns) name.now ≡ Some w) }
{
    let index = columns.place(name);
    if columns.is_new(index, name) {
        return Err(DeckWhy::UnknownName);
    }
    if !has_upper(bounds.bounds(name)) {
        return Err(DeckWhy::PairUpper);
    }
    Ok(Quantity::Upc(index as u32))
}

fn row_quantity<'a>(rows: &RowTable<'a>, name: &'a [u8]) -> Result<Quantity, DeckWhy>
    ensures right { IfOk result (λ q. row_quantity_fault (row_named rows.now name.now) ≡ None) }
    ensures value { IfOk result (λ q. q ≡ Row (unwrap_or (number_of_row (row_named rows.now name.now)) 0)) }
    ensures fault { IfErr result (λ w. row_quantity_fault (row_named rows.now name.now) ≡ Some w) }
{
    match rows.find(name) {
        None => Err(DeckWhy::UnknownName),
        Some(row) => {
            if !is_inequality(row.letter) {
                return Err(DeckWhy::PairKind);
            }
            Ok(Quantity::Row(row.number.unwrap_or(0)))
        }
    }
}

/// The quantity of a kind and a name.
pub fn quantity<'a>(
    rows: &RowTable<'a>,
    columns: &Names<'a>,
    bounds: &BoundTable<'a>,
    kind: &'a [u8],
    name: &'a [u8],
) -> Result<Quantity, DeckWhy>
    requires { length columns.now ≤ MOST_COLUMNS }
    ensures right { IfOk result (λ q. quantity_fault rows.now columns.now (bounds_with bounds.now.columns) kind.now name.now ≡ None) }
    ensures value { IfOk result (λ q. q ≡ quantity_of rows.now columns.now kind.now name.now) }
    ensures fault { IfErr result (λ w. quantity_fault rows.now columns.now (bounds_with bounds.now.columns) kind.now name.now ≡ Some w) }
{
    if is_col(kind) {
        return column_quantity(columns, bounds, name);
    }
    if is_upc(kind) {
        return upper_quantity(columns, bounds, name);
    }
    row_quantity(rows, name)
}

// The two quantities of a pair.
#[tactic(auto, using(mps_tables::proofs::Judging::first_is, mps_tables::proofs::Judging::then_is))]
fn quantities<'a>(
    rows: &RowTable<'a>,
    columns: &Names<'a>,
    bounds: &BoundTable<'a>,
    fields: PairFields<'a>,
) -> Result<PairLine, DeckWhy>
    requires { length columns.now ≤ MOST_COLUMNS }
    ensures fault { Checks result (quantities_fault rows.now columns.now (bounds_with bounds.now.columns) fields.entry.kind.now fields.entry.first.now fields.entry.other.now fields.entry.second.now) }
    ensures value { IfOk result (λ q. q ≡ record { a = quantity_of rows.now columns.now fields.entry.kind.now fields.entry.first.now; b = quantity_of rows.now columns.now fields.entry.other.now fields.entry.second.now }) }
{
    let a = quantity(rows, columns, bounds, fields.kind, fields.first)?;
    let b = quantity(rows, columns, bounds, fields.other, fields.second)?;
    Ok(PairLine { a, b })
}

impl<'a> PairTable<'a> {
    pub fn new(alloc: Global) -> PairTable<'a>
        ensures { result ≡ known_pairs [] [] [] }
    {
        PairTable {
            names: Names::new(alloc),
            pairs: Sequence::new(alloc),
        }
    }

    /// The number of pairs.
    pub fn len(&self) -> usize
        ensures { result ≡ length self.now.names }
    {
        self.names.len()
    }

    /// Takes the pairs out.
    pub fn take_pairs(&mut self, alloc: Global) -> Sequence<PairLine>
        ensures pairs { result ≡ self.old.pairs }
        ensures rest { self.new ≡ record self.old { pairs = [] } }
    {
        replace(&mut self.pairs, Sequence::new(alloc))
    }

    // Checks the kinds of a pair, and that its name is new.
    fn check_front(&self, fields: PairFields<'a>) -> Result<(), DeckWhy>
        ensures fault { Checks result (pair_front_fault self.now.names fields.entry.name.now fields.entry.kind.now fields.entry.other.now) }
        ensures fresh { OnOk result (has self.now.names fields.entry.name.now ≡ false) }
    {
        if !is_kind(fields.kind) || !is_kind(fields.other) {
            return Err(DeckWhy::PairKind);
        }
        if self.names.has(fields.name) {
            return Err(DeckWhy::NameTwice);
        }
        Ok(())
    }

    fn push(&mut self, name: &'a [u8], pair: PairLine) -> Result<(), Fault>
        requires { has self.old.names name.now ≡ false }
        ensures fault { Judges result (many_pairs_fault self.old.names) }
        ensures ok { OnOk result (self.new ≡ record { names = self.old.names ++ name.now ∷ []; pairs = self.old.pairs ++ pair ∷ [] }) }
    {
        if self.names.len() >= MOST_PAIRS {
            return Err(Fault::Of(DeckWhy::TooMany));
        }
        self.names.push(name)?;
        self.pairs.push(pair)?;
        Ok(())
    }

    // Judges the quantities of a pair, and adds it.
    #[tactic(auto, using(mps_tables::proofs::Judging::first_tells, mps_tables::proofs::Judging::then_judges))]
    fn parse_quantities(
        &mut self,
        rows: &RowTable<'a>,
        columns: &Names<'a>,
        bounds: &BoundTable<'a>,
        fields: PairFields<'a>,
    ) -> Result<(), Fault>
        requires few { length columns.now ≤ MOST_COLUMNS }
        requires fresh { has self.old.names fields.name.now ≡ false }
        ensures fault { Judges result (quantities_fault rows.now columns.now (bounds_with bounds.now.columns) fields.entry.kind.now fields.entry.first.now fields.entry.other.now fields.entry.second.now or many_pairs_fault self.old.names) }
        ensures ok { OnOk result (self.new ≡ with_pair rows.now columns.now self.old (pair_words fields.entry)) }
    {
        let pair = quantities(rows, columns, bounds, fields)?;
        self.push(fields.name, pair)
    }

    #[tactic(auto, using(mps_tables::proofs::Judging::first_tells, mps_tables::proofs::Judging::then_judges))]
    fn parse_pair(
        &mut self,
        rows: &RowTable<'a>,
        columns: &Names<'a>,
        bounds: &BoundTable<'a>,
        fields: PairFields<'a>,
    ) -> Result<(), Fault>
        requires few { length columns.now ≤ MOST_COLUMNS }
        ensures fault { Judges result (pair_fault rows.now columns.now (bounds_with bounds.now.columns) self.old.names (pair_words fields.entry)) }
        ensures ok { OnOk result (self.new ≡ with_pair rows.now columns.now self.old (pair_words fields.entry)) }
    {
        self.check_front(fields)?;
        self.parse_quantities(rows, columns, bounds, fields)
    }

    /// Parses a line of PAIRS, below these rows, columns and bounds.
    pub fn parse(
        &mut self,
        rows: &RowTable<'a>,
        columns: &Names<'a>,
        bounds: &BoundTable<'a>,
        fields: &[&'a [u8]],
    ) -> Result<(), Fault>
        requires few { length columns.now ≤ MOST_COLUMNS }
        ensures fault { Judges result (pair_fault rows.now columns.now (bounds_with bounds.now.columns) self.old.names (map shown fields.now)) }
        ensures ok { OnOk result (self.new ≡ with_pair rows.now columns.now self.old (map shown fields.now)) }
    {
        match fields {
            [name, kind, first, other, second] => self.parse_pair(
                rows,
                columns,
                bounds,
                PairFields {
                    name: *name,
                    kind: *kind,
                    first: *first,
                    other: *other,
                    second: *second,
                },
            ),
            _ => Err(Fault::Of(DeckWhy::FieldCount)),
        }
    }
}
