//! The deck of a bilevel problem.
ghost use Rattle.std.specs.Prelude.{◌≡◌, ◌<◌, ◌≤◌, ◌+◌, ◌^◌, ◌++◌, ◌∷◌, IfOk, OnOk, length, pos};
ghost use Rattle.std.specs.List.{flat_map, range_with_len};
ghost use Rattle.decks.specs.Bounds.{default_column};
ghost use Rattle.decks.specs.declared.deck.Letter.TheVariants.{N};
ghost use Rattle.front_text.specs.Problems.{IsBilevel, coefficient_at};
ghost use Rattle.kkt_front.specs.Decks.{bilevel_deck, bilevel_pair, entry_if, free_column, listed, multiplier_entries, variable_entries};
ghost use Rattle.kkt_front.specs.DeckTexts.{line_at};
ghost use Rattle.front_case.specs.Parts.{follow_block, line_block, line_row, numbered_row};

use crate::parts::{pair, push_default_columns, push_entry, push_entry_if};
use decks::{Bound, Column, Deck, Entry, Letter, PairLine, Row};
use kkt_front::{Bilevel, Line, coefficient_at};
use lp_base::Sequence;
use lp_nums::Frac;
use sense::Sense;
use std::alloc::{AllocError, Global};

fn right_side(lines: &[Line], i: usize) -> i64
    requires { i < length lines.now }
    ensures { result ≡ (line_at lines.now i).rhs }
{
    lines[i].rhs
}

// A row for each line, of which the first stands on this line of the deck.
fn push_line_rows(rows: &mut Sequence<Row>, first: u32, lines: &[Line]) -> Result<(), AllocError>
    requires { first + length lines.now < 2 ^ 32 }
    ensures { OnOk result (rows.new ≡ rows.old ++ listed (line_row first lines.now) (length lines.now)) }
{
    for i in 0..lines.len() {
        rows.push(Row {
            letter: Letter::G,
            line: first + i as u32,
            rhs: Frac::whole(i128::from(right_side(lines, i))),
            range: None,
        })?;
    }
    Ok(())
}

// An E row for each number, of which the first stands on this line of the deck.
fn push_number_rows(rows: &mut Sequence<Row>, first: u32, numbers: &[i64]) -> Result<(), AllocError>
    requires { first + length numbers.now < 2 ^ 32 }
    ensures { OnOk result (rows.new ≡ rows.old ++ listed (numbered_row first numbers.now) (length numbers.now)) }
{
    for i in 0..numbers.len() {
        rows.push(Row {
            letter: Letter::E,
            line: first + i as u32,
            rhs: Frac::whole(i128::from(numbers[i])),
            range: None,
        })?;
    }
    Ok(())
}

fn rows(alloc: Global, b: &Bilevel) -> Result<Sequence<Row>, AllocError>
    requires { IsBilevel b.now }
    ensures { IfOk result (λ made. made ≡ (bilevel_deck b.now 0 0).rows) }
{
    let mut made = Sequence::new(alloc);
    let ups = b.up.len() as u32;
    let lows = b.low.len() as u32;
    made.push(Row {
        letter: Letter::N,
        line: 3,
        rhs: Frac::whole(0),
        range: None,
    })?;
    push_line_rows(&mut made, 4, b.up.as_slice())?;
    push_line_rows(&mut made, 4 + ups, b.low.as_slice())?;
    push_number_rows(&mut made, 4 + ups + lows, b.follow.as_slice())?;
    Ok(made)
}

// A free column for each of n variables.
fn push_free_columns(columns: &mut Sequence<Column>, n: u32) -> Result<(), AllocError>
    ensures { OnOk result (columns.new ≡ columns.old ++ listed (λ j. free_column (0 + j)) n) }
{
    for j in 0..n {
        columns.push(Column {
            lower: Bound {
                value: None,
                line: j,
            },
            upper: Bound {
                value: None,
                line: j,
            },
            fixed: false,
        })?;
    }
    Ok(())
}

fn columns(alloc: Global, b: &Bilevel) -> Result<Sequence<Column>, AllocError>
    requires { IsBilevel b.now }
    ensures { IfOk result (λ made. made ≡ (bilevel_deck b.now 0 0).columns) }
{
    let mut made = Sequence::new(alloc);
    push_free_columns(&mut made, b.nx + b.ny)?;
    push_default_columns(&mut made, b.low.len() as u32)?;
    Ok(made)
}

fn push_line_entry(
    entries: &mut Sequence<Entry>,
    first: u32,
    lines: &[Line],
    j: u32,
    i: usize,
) -> Result<(), AllocError>
    requires there { i < length lines.now }
    requires small { first + length lines.now < 2 ^ 32 }
    ensures { OnOk result (entries.new ≡ entries.old ++ entry_if j (first + i) (coefficient_at (line_at lines.now i).terms j)) }
{
    let value = coefficient_at(lines[i].terms.as_slice(), j);
    push_entry_if(entries, j, first + i as u32, value)
}

// The entries of a variable in lines, of which the first has the row of this number.
fn push_line_entries(
    entries: &mut Sequence<Entry>,
    first: u32,
    lines: &[Line],
    j: u32,
) -> Result<(), AllocError>
    requires { first + length lines.now < 2 ^ 32 }
    ensures { OnOk result (entries.new ≡ entries.old ++ line_block first lines.now j) }
{
    for i in 0..lines.len() {
        push_line_entry(entries, first, lines, j, i)?;
    }
    Ok(())
}

fn push_variable(entries: &mut Sequence<Entry>, b: &Bilevel, j: u32) -> Result<(), AllocError>
    requires rules { IsBilevel b.now }
    requires there { j < b.now.nx + b.now.ny }
    ensures { OnOk result (entries.new ≡ entries.old ++ variable_entries b.now j) }
{
    push_entry(entries, j, 0, b.cost.as_slice()[j as usize])?;
    push_line_entries(entries, 1, b.up.as_slice(), j)?;
    push_line_entries(entries, 1 + b.up.len() as u32, b.low.as_slice(), j)
}

// The entries of a multiplier in n rows, of which the first has this number: the coefficients of
// the variables from this one on.
fn push_follow_entries(
    entries: &mut Sequence<Entry>,
    column: u32,
    first: u32,
    terms: &[(u32, i64)],
    variable: u32,
    n: u32,
) -> Result<(), AllocError>
    requires rows { first + n < 2 ^ 32 }
    requires variables { variable + n < 2 ^ 32 }
    ensures { OnOk result (entries.new ≡ entries.old ++ follow_block column first terms.now variable n) }
{
    for k in 0..n {
        let value = coefficient_at(terms, variable + k);
        push_entry_if(entries, column, first + k, value)?;
    }
    Ok(())
}

fn push_multiplier(entries: &mut Sequence<Entry>, b: &Bilevel, i: u32) -> Result<(), AllocError>
    requires rules { IsBilevel b.now }
    requires there { i < length b.now.low }
    ensures { OnOk result (entries.new ≡ entries.old ++ multiplier_entries b.now i) }
{
    let column = b.nx + b.ny + i;
    let first = 1 + b.up.len() as u32 + b.low.len() as u32;
    let terms = b.low.as_slice()[i as usize].terms.as_slice();
    push_entry(entries, column, 0, 0)?;
    push_follow_entries(entries, column, first, terms, b.nx, b.ny)
}

fn push_variables(entries: &mut Sequence<Entry>, b: &Bilevel) -> Result<(), AllocError>
    requires { IsBilevel b.now }
    ensures { OnOk result (entries.new ≡ entries.old ++ flat_map (variable_entries b.now) (range_with_len 0 (b.now.nx + b.now.ny))) }
{
    for j in 0..b.nx + b.ny {
        push_variable(entries, b, j)?;
    }
    Ok(())
}

fn push_multipliers(entries: &mut Sequence<Entry>, b: &Bilevel) -> Result<(), AllocError>
    requires { IsBilevel b.now }
    ensures { OnOk result (entries.new ≡ entries.old ++ flat_map (multiplier_entries b.now) (range_with_len 0 (length b.now.low))) }
{
    for i in 0..b.low.len() {
        push_multiplier(entries, b, i as u32)?;
    }
    Ok(())
}

fn entries(alloc: Global, b: &Bilevel) -> Result<Sequence<Entry>, AllocError>
    requires { IsBilevel b.now }
    ensures { IfOk result (λ made. made ≡ (bilevel_deck b.now 0 0).entries) }
{
    let mut made = Sequence::new(alloc);
    push_variables(&mut made, b)?;
    push_multipliers(&mut made, b)?;
    Ok(made)
}

fn pairs(alloc: Global, b: &Bilevel) -> Result<Sequence<PairLine>, AllocError>
    requires { IsBilevel b.now }
    ensures { IfOk result (λ made. made ≡ listed (bilevel_pair b.now) (length b.now.low)) }
{
    let mut made = Sequence::new(alloc);
    let first = 1 + b.up.len() as u32;
    for i in 0..b.low.len() {
        made.push(pair(first + i as u32, b.nx + b.ny + i as u32))?;
    }
    Ok(made)
}

/// The deck of a bilevel problem that a text spells, as a value. Its lines are not counted: those of
/// BOUNDS are numbered from 0, and that of ENDATA has the number 0.
pub fn bilevel_as_deck(alloc: Global, bilevel: &Bilevel) -> Result<Deck, AllocError>
    requires { IsBilevel bilevel.now }
    ensures { IfOk result (λ made. made ≡ bilevel_deck bilevel.now 0 0) }
{
    Ok(Deck {
        sense: Sense::Min,
        rows: rows(alloc, bilevel)?,
        objective: 0,
        columns: columns(alloc, bilevel)?,
        entries: entries(alloc, bilevel)?,
        pairs: pairs(alloc, bilevel)?,
        groups: Sequence::new(alloc),
        end_line: 0,
    })
}
