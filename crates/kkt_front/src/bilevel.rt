//! The deck of a bilevel problem.
ghost use Rattle.std.specs.Prelude.{◌≡◌, ◌<◌, ◌++◌, ◌+◌, ◌≤◌, ◌^◌, IfOk, OnOk, codes, length};
ghost use Rattle.front_text.specs.Problems.{IsBilevel};
ghost use Rattle.deck_gen.specs.Generator.{joined};
ghost use Rattle.kkt_front.specs.DeckTexts.{bilevel_bounds, bilevel_columns, bilevel_pairs, bilevel_rights, bilevel_rows, bilevel_text, follow_right, has_no_rights, line_entry, line_right, right_lines, multiplier_column, multiplier_entry, variable_column};

use crate::lines::{
    push_cost_line, push_entry_line, push_numbered_lines, push_pair_lines, push_right_line,
    push_text,
};
use crate::parts::{are_zero, coefficient_at, have_zero};
use front_text::{Bilevel, Line};
use std::alloc::{AllocError, Global};

fn push_rows(out: &mut Vec<u8>, b: &Bilevel) -> Result<(), AllocError>
    requires { IsBilevel b.now }
    ensures { OnOk result (out.new.items ≡ out.old.items ++ bilevel_rows b.now) }
{
    push_text(out, b"ROWS\n N cost\n")?;
    push_numbered_lines(out, b" G u", b.up.len() as u32)?;
    push_numbered_lines(out, b" G l", b.low.len() as u32)?;
    push_numbered_lines(out, b" E s", b.ny)
}

// The entries of a variable in lines.
fn push_line_entries(
    out: &mut Vec<u8>,
    row: &[u8],
    lines: &[Line],
    j: u32,
) -> Result<(), AllocError>
    requires { length lines.now < 2 ^ 32 }
    ensures { OnOk result (out.new.items ≡ out.old.items ++ joined (line_entry row.now lines.now j) (length lines.now)) }
{
    for i in 0..lines.len() {
        push_entry_line(
            out,
            b" v",
            j,
            row,
            i as u32,
            coefficient_at(lines[i].terms.as_slice(), j),
        )?;
    }
    Ok(())
}

fn push_variable_column(out: &mut Vec<u8>, b: &Bilevel, j: u32) -> Result<(), AllocError>
    requires rules { IsBilevel b.now }
    requires there { j < b.now.nx + b.now.ny }
    ensures { OnOk result (out.new.items ≡ out.old.items ++ variable_column b.now j) }
{
    push_cost_line(out, b" v", j, b.cost.as_slice()[j as usize])?;
    push_line_entries(out, b" u", b.up.as_slice(), j)?;
    push_line_entries(out, b" l", b.low.as_slice(), j)
}

fn push_variable_columns(out: &mut Vec<u8>, b: &Bilevel) -> Result<(), AllocError>
    requires { IsBilevel b.now }
    ensures { OnOk result (out.new.items ≡ out.old.items ++ joined (variable_column b.now) (b.now.nx + b.now.ny)) }
{
    for column in 0..b.nx + b.ny {
        push_variable_column(out, b, column)?;
    }
    Ok(())
}

fn push_multiplier_entry(out: &mut Vec<u8>, b: &Bilevel, i: u32, k: u32) -> Result<(), AllocError>
    requires rules { IsBilevel b.now }
    requires line { i < length b.now.low }
    requires there { k < b.now.ny }
    ensures { OnOk result (out.new.items ≡ out.old.items ++ multiplier_entry b.now i k) }
{
    let terms = b.low.as_slice()[i as usize].terms.as_slice();
    push_entry_line(out, b" m", i, b" s", k, coefficient_at(terms, b.nx + k))
}

fn push_multiplier_entries(out: &mut Vec<u8>, b: &Bilevel, i: u32) -> Result<(), AllocError>
    requires rules { IsBilevel b.now }
    requires line { i < length b.now.low }
    ensures { OnOk result (out.new.items ≡ out.old.items ++ joined (multiplier_entry b.now i) b.now.ny) }
{
    for k in 0..b.ny {
        push_multiplier_entry(out, b, i, k)?;
    }
    Ok(())
}

fn push_multiplier_column(out: &mut Vec<u8>, b: &Bilevel, i: u32) -> Result<(), AllocError>
    requires rules { IsBilevel b.now }
    requires line { i < length b.now.low }
    ensures { OnOk result (out.new.items ≡ out.old.items ++ multiplier_column b.now i) }
{
    push_cost_line(out, b" m", i, 0)?;
    push_multiplier_entries(out, b, i)
}

fn push_multiplier_columns(out: &mut Vec<u8>, b: &Bilevel) -> Result<(), AllocError>
    requires { IsBilevel b.now }
    ensures { OnOk result (out.new.items ≡ out.old.items ++ joined (multiplier_column b.now) (length b.now.low)) }
{
    for column in 0..b.low.len() as u32 {
        push_multiplier_column(out, b, column)?;
    }
    Ok(())
}

fn push_columns(out: &mut Vec<u8>, b: &Bilevel) -> Result<(), AllocError>
    requires { IsBilevel b.now }
    ensures { OnOk result (out.new.items ≡ out.old.items ++ bilevel_columns b.now) }
{
    push_text(out, b"COLUMNS\n")?;
    push_variable_columns(out, b)?;
    push_multiplier_columns(out, b)
}

fn push_line_rights(out: &mut Vec<u8>, row: &[u8], lines: &[Line]) -> Result<(), AllocError>
    requires { length lines.now < 2 ^ 32 }
    ensures { OnOk result (out.new.items ≡ out.old.items ++ joined (line_right row.now lines.now) (length lines.now)) }
{
    for i in 0..lines.len() {
        push_right_line(out, row, i as u32, lines[i].rhs)?;
    }
    Ok(())
}

fn push_follow_rights(out: &mut Vec<u8>, b: &Bilevel) -> Result<(), AllocError>
    requires { IsBilevel b.now }
    ensures { OnOk result (out.new.items ≡ out.old.items ++ joined (follow_right b.now) b.now.ny) }
{
    for k in 0..b.ny {
        push_right_line(out, b" rhs s", k, b.follow.as_slice()[k as usize])?;
    }
    Ok(())
}

fn push_right_lines(out: &mut Vec<u8>, b: &Bilevel) -> Result<(), AllocError>
    requires { IsBilevel b.now }
    ensures { OnOk result (out.new.items ≡ out.old.items ++ right_lines b.now) }
{
    push_text(out, b"RHS\n")?;
    push_line_rights(out, b" rhs u", b.up.as_slice())?;
    push_line_rights(out, b" rhs l", b.low.as_slice())?;
    push_follow_rights(out, b)
}

fn has_no_rights(b: &Bilevel) -> bool
    ensures { result ≡ has_no_rights b.now }
{
    have_zero(b.up.as_slice()) && have_zero(b.low.as_slice()) && are_zero(b.follow.as_slice())
}

fn push_rights(out: &mut Vec<u8>, b: &Bilevel) -> Result<(), AllocError>
    requires { IsBilevel b.now }
    ensures { OnOk result (out.new.items ≡ out.old.items ++ bilevel_rights b.now) }
{
    if has_no_rights(b) {
        return Ok(());
    }
    push_right_lines(out, b)
}

fn push_bounds(out: &mut Vec<u8>, b: &Bilevel) -> Result<(), AllocError>
    requires { IsBilevel b.now }
    ensures { OnOk result (out.new.items ≡ out.old.items ++ bilevel_bounds b.now) }
{
    push_text(out, b"BOUNDS\n")?;
    push_numbered_lines(out, b" FR bnd v", b.nx + b.ny)
}

fn push_pairs(out: &mut Vec<u8>, b: &Bilevel) -> Result<(), AllocError>
    requires { IsBilevel b.now }
    ensures { OnOk result (out.new.items ≡ out.old.items ++ bilevel_pairs b.now) }
{
    if b.low.is_empty() {
        return Ok(());
    }
    push_text(out, b"PAIRS\n")?;
    push_pair_lines(out, b" ROW l", b" COL m", b.low.len() as u32)
}

fn push_deck(out: &mut Vec<u8>, b: &Bilevel) -> Result<(), AllocError>
    requires { IsBilevel b.now }
    ensures { OnOk result (out.new.items ≡ out.old.items ++ bilevel_text b.now) }
{
    push_text(out, b"NAME bilevel\n")?;
    push_rows(out, b)?;
    push_columns(out, b)?;
    push_rights(out, b)?;
    push_bounds(out, b)?;
    push_pairs(out, b)?;
    push_text(out, b"ENDATA\n")
}

/// The text of the deck of a bilevel problem that a text spells: a free column for each variable
/// and a column for the multiplier of each line of `low`; a G row for each line, and an E row for
/// each y, which says that the multipliers times its coefficients make up its number in `follow`;
/// and for each line of `low` a pair of its row and its multiplier.
pub fn bilevel_deck(alloc: Global, bilevel: &Bilevel) -> Result<Vec<u8>, AllocError>
    requires { IsBilevel bilevel.now }
    ensures { IfOk result (λ text. text.items ≡ bilevel_text bilevel.now) }
{
    let mut text = Vec::new(alloc);
    push_deck(&mut text, bilevel)?;
    Ok(text)
}
