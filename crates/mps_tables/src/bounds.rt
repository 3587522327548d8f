//! Bounds of columns.
ghost use Rattle.std.specs.Prelude.{◌≡◌, [], true, false, not, if◌then◌else◌, IfOk, IfErr, OnOk, None, Some, map, option_map};
ghost use Rattle.mps_lex.specs.Shown.{shown};
ghost use Rattle.decks.specs.declared.fault.DeckWhy.TheVariants.{UnknownName};
ghost use Rattle.decks.specs.Decks.{IsDeckNumber};
ghost use Rattle.decks.specs.Names.{has};
ghost use Rattle.decks.specs.Bounds.{bound_kind, takes_value, bound_words, bound_value, set_in, setting_with, lower_by, upper_by, is_fx, bound_behind, default_column, is_below_zero, lesser, below_zero_line};
ghost use Rattle.decks.specs.Faults.{◌or◌, fault_if, set_fault, unknown_kind_fault, bound_value_fault, bound_words_fault, bound_fault};
ghost use Rattle.mps_tables.specs.Known.{known_bounds, bounds_with, set_or, with_setting, with_settings, with_bound};
ghost use Rattle.mps_tables.specs.Answers.{Judges};
ghost use Rattle.mps_tables.specs.Fields.{seen_fields};

use crate::fault::Fault;
use crate::names::{NameMap, Names};
use crate::numbers::{is_negative, lower_end, parse_number, upper_end};
use crate::row_values::check_set;
use decks::{Bound, BoundKind, Column, DeckWhy};
use lp_nums::Frac;
use std::alloc::Global;
use std::marker::Model;

#[tactic(auto, unfolding(decks::specs::Bounds::bound_kind))]
pub fn bound_kind(word: &[u8]) -> Option<BoundKind>
    ensures { result ≡ bound_kind word.now }
{
    if word == b"UP".as_slice() {
        return Some(BoundKind::Up);
    }
    if word == b"LO".as_slice() {
        return Some(BoundKind::Lo);
    }
    if word == b"FX".as_slice() {
        return Some(BoundKind::Fx);
    }
    if word == b"FR".as_slice() {
        return Some(BoundKind::Fr);
    }
    if word == b"MI".as_slice() {
        return Some(BoundKind::Mi);
    }
    if word == b"PL".as_slice() {
        return Some(BoundKind::Pl);
    }
    None
}

fn takes_value(kind: BoundKind) -> bool
    ensures { result ≡ takes_value kind }
{
    match kind {
        BoundKind::Up | BoundKind::Lo | BoundKind::Fx => true,
        BoundKind::Fr | BoundKind::Mi | BoundKind::Pl => false,
    }
}

/// What stands behind the kind of a bound. A set or a value that is not there is empty.
#[derive(Clone, Copy)]
pub struct BoundFields<'a> {
    set: &'a [u8],
    column: &'a [u8],
    value: &'a [u8],
}

fn valued_fields<'a>(fields: &[&'a [u8]]) -> Option<BoundFields<'a>>
    ensures { option_map seen_fields result ≡ bound_words true (map shown fields.now) }
{
    match fields {
        [column, value] => Some(BoundFields {
            set: b"".as_slice(),
            column: *column,
            value: *value,
        }),
        [set, column, value] => Some(BoundFields {
            set: *set,
            column: *column,
            value: *value,
        }),
        _ => None,
    }
}

fn plain_fields<'a>(fields: &[&'a [u8]]) -> Option<BoundFields<'a>>
    ensures { option_map seen_fields result ≡ bound_words false (map shown fields.now) }
{
    match fields {
        [column] => Some(BoundFields {
            set: b"".as_slice(),
            column: *column,
            value: b"".as_slice(),
        }),
        [set, column] | [set, column, _] => Some(BoundFields {
            set: *set,
            column: *column,
            value: b"".as_slice(),
        }),
        _ => None,
    }
}

fn bound_fields<'a>(takes: bool, fields: &[&'a [u8]]) -> Option<BoundFields<'a>>
    ensures { option_map seen_fields result ≡ bound_words takes (map shown fields.now) }
{
    if takes {
        valued_fields(fields)
    } else {
        plain_fields(fields)
    }
}

fn unknown_kind(word: &[u8]) -> DeckWhy
    ensures { result ≡ unknown_kind_fault word.now }
{
    if word == b"BV".as_slice()
        || word == b"LI".as_slice()
        || word == b"UI".as_slice()
        || word == b"SC".as_slice()
    {
        return DeckWhy::IntegerMarker;
    }
    DeckWhy::BoundKind
}

// Parses the value of a bound, where its kind takes one.
fn parse_bound_value(takes: bool, value: &[u8]) -> Result<Frac, DeckWhy>
    ensures right { IfOk result (λ f. bound_value_fault takes value.now ≡ None) }
    ensures value { IfOk result (λ f. f ≡ bound_value takes value.now) }
    ensures small { IfOk result IsDeckNumber }
    ensures fault { IfErr result (λ w. bound_value_fault takes value.now ≡ Some w) }
{
    if takes {
        return parse_number(value);
    }
    Ok(Frac::whole(0))
}

// A lower bound behind a line, where the line sets or removes it.
fn lower_behind(kind: BoundKind, line: u32, value: Frac, bound: Bound) -> Bound
    requires { IsDeckNumber value }
    ensures { result ≡ bound_behind line bound (lower_by kind value) }
{
    match kind {
        BoundKind::Up | BoundKind::Pl => bound,
        BoundKind::Lo => Bound {
            value: lower_end(value),
            line,
        },
        BoundKind::Fx => Bound {
            value: Some(value),
            line,
        },
        BoundKind::Fr | BoundKind::Mi => Bound { value: None, line },
    }
}

// An upper bound behind a line, where the line sets or removes it.
fn upper_behind(kind: BoundKind, line: u32, value: Frac, bound: Bound) -> Bound
    requires { IsDeckNumber value }
    ensures { result ≡ bound_behind line bound (upper_by kind value) }
{
    match kind {
        BoundKind::Lo | BoundKind::Mi => bound,
        BoundKind::Up => Bound {
            value: upper_end(value),
            line,
        },
        BoundKind::Fx => Bound {
            value: Some(value),
            line,
        },
        BoundKind::Fr | BoundKind::Pl => Bound { value: None, line },
    }
}

fn is_fx(kind: BoundKind) -> bool
    ensures { result ≡ is_fx kind }
{
    match kind {
        BoundKind::Fx => true,
        BoundKind::Up | BoundKind::Lo | BoundKind::Fr | BoundKind::Mi | BoundKind::Pl => false,
    }
}

// A column that no line names.
fn default_column() -> Column
    ensures { result ≡ default_column }
{
    Column {
        lower: Bound {
            value: Some(Frac::whole(0)),
            line: 0,
        },
        upper: Bound {
            value: None,
            line: 0,
        },
        fixed: false,
    }
}

fn is_below_zero(column: &Column) -> bool
    ensures { result ≡ is_below_zero column.now }
{
    column.lower.line == 0 && is_negative(column.upper.value)
}

// The lesser of a line and the line of a column's upper bound, where that is below 0 alone.
fn lesser_line(least: Option<u32>, column: &Column) -> Option<u32>
    ensures { result ≡ (if is_below_zero column.now then lesser least column.now.upper.line else least) }
{
    if !is_below_zero(column) {
        return least;
    }
    let line = column.upper.line;
    match least {
        None => Some(line),
        Some(other) => Some(other.min(line)),
    }
}

/// The columns that lines of BOUNDS name with their bounds, and the name of the set.
#[derive(Drop)]
pub struct BoundTable<'a> {
    set: Option<&'a [u8]>,
    columns: NameMap<'a, Column>,
}

impl<'a> Model for BoundTable<'a> {
    ghost use Rattle.std.specs.Prelude.{option_map};
    ghost use Rattle.mps_tables.specs.Known.{KnownBounds};
    ghost use Rattle.mps_lex.specs.Shown.{shown};

    ghost Value = { KnownBounds };

    ghost view = { λ t. record { set = option_map shown t.set; columns = t.columns } };
}

impl<'a> BoundTable<'a> {
    pub fn new(alloc: Global) -> BoundTable<'a>
        ensures { result ≡ known_bounds [] }
    {
        BoundTable {
            set: None,
            columns: NameMap::new(alloc),
        }
    }

    /// The bounds of a column.
    pub fn bounds(&self, column: &'a [u8]) -> Column
        ensures { result ≡ bounds_with self.now.columns column.now }
    {
        match self.columns.get(column) {
            Some(found) => found,
            None => default_column(),
        }
    }

    /// The least line that set an upper bound below 0 of a column whose lower bound no line has set
    /// or removed.
    pub fn below_zero(&self) -> Option<u32>
        ensures { result ≡ below_zero_line (map (λ e. e.1) self.now.columns) }
    {
        let mut least: Option<u32> = None;
        for index in 0..self.columns.len() {
            if let Some((_, column)) = self.columns.at(index) {
                least = lesser_line(least, &column);
            }
        }
        least
    }

    fn parse_set(&mut self, set: &'a [u8]) -> Result<(), Fault>
        ensures fault { Judges result (set_fault self.old.set set.now) }
        ensures ok { OnOk result (self.new ≡ record self.old { set = set_or self.old.set set.now }) }
    {
        check_set(self.set, set)?;
        if self.set.is_none() {
            self.set = Some(set);
        }
        Ok(())
    }

    // Sets bounds of a column.
    fn put(
        &mut self,
        kind: BoundKind,
        line: u32,
        column: &'a [u8],
        value: Frac,
    ) -> Result<(), Fault>
        requires { IsDeckNumber value }
        ensures fault { Judges result None }
        ensures ok { OnOk result (self.new ≡ record self.old { columns = with_setting self.old.columns (record { kind = kind; line = line; column = column.now; value = value }) }) }
    {
        let before = self.bounds(column);
        self.columns.put(
            column,
            Column {
                lower: lower_behind(kind, line, value, before.lower),
                upper: upper_behind(kind, line, value, before.upper),
                fixed: is_fx(kind),
            },
        )?;
        Ok(())
    }

    // Judges a column with its value, and sets its bounds.
    fn parse_value(
        &mut self,
        columns: &Names<'a>,
        line: u32,
        kind: BoundKind,
        column: &'a [u8],
        value: &'a [u8],
    ) -> Result<(), Fault>
        ensures fault { Judges result (fault_if (not (has columns.now column.now)) UnknownName or bound_value_fault (takes_value kind) value.now) }
        ensures ok { OnOk result (self.new ≡ record self.old { columns = with_setting self.old.columns (record { kind = kind; line = line; column = column.now; value = bound_value (takes_value kind) value.now }) }) }
    {
        if !columns.has(column) {
            return Err(Fault::Of(DeckWhy::UnknownName));
        }
        let value = parse_bound_value(takes_value(kind), value)?;
        self.put(kind, line, column, value)
    }

    #[tactic(auto, using(crate::proofs::Judging::first_tells, crate::proofs::Judging::then_judges))]
    fn parse_fields(
        &mut self,
        columns: &Names<'a>,
        line: u32,
        kind: BoundKind,
        fields: BoundFields<'a>,
    ) -> Result<(), Fault>
        ensures fault { Judges result (bound_words_fault columns.now self.old.set (takes_value kind) (Some (seen_fields fields.entry))) }
        ensures ok { OnOk result (self.new ≡ record { set = set_or self.old.set fields.entry.set.now; columns = with_settings self.old.columns (setting_with kind line (Some (seen_fields fields.entry))) }) }
    {
        self.parse_set(fields.set)?;
        self.parse_value(columns, line, kind, fields.column, fields.value)
    }

    fn parse_kind(
        &mut self,
        columns: &Names<'a>,
        line: u32,
        kind: BoundKind,
        fields: &[&'a [u8]],
    ) -> Result<(), Fault>
        ensures fault { Judges result (bound_words_fault columns.now self.old.set (takes_value kind) (bound_words (takes_value kind) (map shown fields.now))) }
        ensures ok { OnOk result (self.new ≡ record { set = set_or self.old.set (set_in (bound_words (takes_value kind) (map shown fields.now))); columns = with_settings self.old.columns (setting_with kind line (bound_words (takes_value kind) (map shown fields.now))) }) }
    {
        match bound_fields(takes_value(kind), fields) {
            None => Err(Fault::Of(DeckWhy::FieldCount)),
            Some(found) => self.parse_fields(columns, line, kind, found),
        }
    }

    /// Parses a line of BOUNDS, below these columns.
    pub fn parse(
        &mut self,
        columns: &Names<'a>,
        line: u32,
        fields: &[&'a [u8]],
    ) -> Result<(), Fault>
        ensures fault { Judges result (bound_fault columns.now self.old.set (map shown fields.now)) }
        ensures ok { OnOk result (self.new ≡ with_bound self.old line (map shown fields.now)) }
    {
        match fields {
            [] => Err(Fault::Of(DeckWhy::FieldCount)),
            [word, rest @ ..] => match bound_kind(*word) {
                None => Err(Fault::Of(unknown_kind(*word))),
                Some(kind) => self.parse_kind(columns, line, kind, rest),
            },
        }
    }
}
