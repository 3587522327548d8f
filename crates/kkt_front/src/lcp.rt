//! The deck of a linear complementarity problem.
ghost use Rattle.std.specs.Prelude.{◌≡◌, ◌<◌, ◌++◌, IfOk, OnOk};
ghost use Rattle.front_text.specs.Problems.{IsLcp};
ghost use Rattle.deck_gen.specs.Generator.{joined};
ghost use Rattle.kkt_front.specs.DeckTexts.{lcp_column, lcp_columns, lcp_entry, lcp_pairs, lcp_right, lcp_rights, lcp_rows, lcp_text};

use crate::lines::{
    push_cost_line, push_entry_line, push_numbered_lines, push_pair_lines, push_right_line,
    push_text,
};
use crate::parts::{are_zero, coefficient_at};
use front_text::Lcp;
use std::alloc::{AllocError, Global};

fn push_rows(out: &mut Vec<u8>, lcp: &Lcp) -> Result<(), AllocError>
    ensures { OnOk result (out.new.items ≡ out.old.items ++ lcp_rows lcp.now) }
{
    push_text(out, b"ROWS\n N cost\n")?;
    push_numbered_lines(out, b" G w", lcp.size)
}

fn push_entry(out: &mut Vec<u8>, lcp: &Lcp, j: u32, i: u32) -> Result<(), AllocError>
    requires rules { IsLcp lcp.now }
    requires row { i < lcp.now.size }
    ensures { OnOk result (out.new.items ≡ out.old.items ++ lcp_entry lcp.now j i) }
{
    let row = lcp.rows.as_slice()[i as usize].as_slice();
    push_entry_line(out, b" z", j, b" w", i, coefficient_at(row, j))
}

fn push_entries(out: &mut Vec<u8>, lcp: &Lcp, j: u32) -> Result<(), AllocError>
    requires { IsLcp lcp.now }
    ensures { OnOk result (out.new.items ≡ out.old.items ++ joined (lcp_entry lcp.now j) lcp.now.size) }
{
    for row in 0..lcp.size {
        push_entry(out, lcp, j, row)?;
    }
    Ok(())
}

fn push_column(out: &mut Vec<u8>, lcp: &Lcp, j: u32) -> Result<(), AllocError>
    requires { IsLcp lcp.now }
    ensures { OnOk result (out.new.items ≡ out.old.items ++ lcp_column lcp.now j) }
{
    push_cost_line(out, b" z", j, 0)?;
    push_entries(out, lcp, j)
}

fn push_columns(out: &mut Vec<u8>, lcp: &Lcp) -> Result<(), AllocError>
    requires { IsLcp lcp.now }
    ensures { OnOk result (out.new.items ≡ out.old.items ++ lcp_columns lcp.now) }
{
    push_text(out, b"COLUMNS\n")?;
    for column in 0..lcp.size {
        push_column(out, lcp, column)?;
    }
    Ok(())
}

fn push_right(out: &mut Vec<u8>, lcp: &Lcp, i: u32) -> Result<(), AllocError>
    requires rules { IsLcp lcp.now }
    requires row { i < lcp.now.size }
    ensures { OnOk result (out.new.items ≡ out.old.items ++ lcp_right lcp.now i) }
{
    push_right_line(out, b" rhs w", i, -lcp.q.as_slice()[i as usize])
}

fn push_rights(out: &mut Vec<u8>, lcp: &Lcp) -> Result<(), AllocError>
    requires { IsLcp lcp.now }
    ensures { OnOk result (out.new.items ≡ out.old.items ++ lcp_rights lcp.now) }
{
    if are_zero(lcp.q.as_slice()) {
        return Ok(());
    }
    push_text(out, b"RHS\n")?;
    for row in 0..lcp.size {
        push_right(out, lcp, row)?;
    }
    Ok(())
}

fn push_pairs(out: &mut Vec<u8>, lcp: &Lcp) -> Result<(), AllocError>
    ensures { OnOk result (out.new.items ≡ out.old.items ++ lcp_pairs lcp.now) }
{
    push_text(out, b"PAIRS\n")?;
    push_pair_lines(out, b" ROW w", b" COL z", lcp.size)
}

fn push_deck(out: &mut Vec<u8>, lcp: &Lcp) -> Result<(), AllocError>
    requires { IsLcp lcp.now }
    ensures { OnOk result (out.new.items ≡ out.old.items ++ lcp_text lcp.now) }
{
    push_text(out, b"NAME lcp\n")?;
    push_rows(out, lcp)?;
    push_columns(out, lcp)?;
    push_rights(out, lcp)?;
    push_pairs(out, lcp)?;
    push_text(out, b"ENDATA\n")
}

/// The text of the deck of a linear complementarity problem that a text spells: a column and a G
/// row for each variable, with a pair of both, and no costs.
pub fn lcp_deck(alloc: Global, lcp: &Lcp) -> Result<Vec<u8>, AllocError>
    requires { IsLcp lcp.now }
    ensures { IfOk result (λ text. text.items ≡ lcp_text lcp.now) }
{
    let mut text = Vec::new(alloc);
    push_deck(&mut text, lcp)?;
    Ok(text)
}
