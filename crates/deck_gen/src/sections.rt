//! The sections of a generated deck, and the whole text.
ghost use Rattle.std.specs.Prelude.{◌≡◌, ◌+◌, ◌<◌, ◌≤◌, ◌++◌, IfOk, OnOk};
ghost use Rattle.deck_gen.specs.Generator.{IsInRange, column_lines, columns_section, deck_text, draw, draws_before, entry_of, joined, modulus, pairs_section, right_sides_section, rows_section};

use crate::draws::{first_state, next_draw};
use crate::lines::{
    push_cost_line, push_entry_line, push_name_line, push_pair_line, push_right_side_line,
    push_row_line, push_text,
};
use crate::sizes::Sizes;
use std::alloc::{AllocError, Global};

fn push_rows(out: &mut Vec<u8>, sizes: Sizes) -> Result<(), AllocError>
    ensures { OnOk result (out.new.items ≡ out.old.items ++ rows_section sizes) }
{
    push_text(out, b"ROWS\n N cost\n")?;
    for row in 0..sizes.rows {
        push_row_line(out, row)?;
    }
    Ok(())
}

/// The entries of a column, from the state behind the draw of its cost on. The result is the state
/// behind the draws of the column.
fn push_entries(out: &mut Vec<u8>, sizes: Sizes, column: u32, state: u32) -> Result<u32, AllocError>
    requires state { state ≡ draw sizes.seed (draws_before sizes column + 1) }
    requires small { state < modulus }
    ensures text { OnOk result (out.new.items ≡ out.old.items ++ joined (entry_of sizes column) sizes.rows) }
    ensures state { IfOk result (λ after. after ≡ draw sizes.seed (draws_before sizes column + 1 + sizes.rows)) }
    ensures small { IfOk result (λ after. after < modulus) }
{
    let mut drawn = state;
    for row in 0..sizes.rows {
        drawn = next_draw(drawn);
        push_entry_line(out, column, row, drawn % 10)?;
    }
    Ok(drawn)
}

/// The lines of a column, from the state before its draws on. The result is the state behind them.
fn push_column(out: &mut Vec<u8>, sizes: Sizes, column: u32, state: u32) -> Result<u32, AllocError>
    requires state { state ≡ draw sizes.seed (draws_before sizes column) }
    requires small { state < modulus }
    ensures text { OnOk result (out.new.items ≡ out.old.items ++ column_lines sizes column) }
    ensures state { IfOk result (λ after. after ≡ draw sizes.seed (draws_before sizes (column + 1))) }
    ensures small { IfOk result (λ after. after < modulus) }
{
    let drawn = next_draw(state);
    push_cost_line(out, column, drawn % 9 + 1)?;
    push_entries(out, sizes, column, drawn)
}

fn push_columns(out: &mut Vec<u8>, sizes: Sizes, state: u32) -> Result<u32, AllocError>
    requires state { state ≡ draw sizes.seed 0 }
    requires small { state < modulus }
    ensures text { OnOk result (out.new.items ≡ out.old.items ++ columns_section sizes) }
    ensures state { IfOk result (λ after. after ≡ draw sizes.seed (draws_before sizes sizes.columns)) }
    ensures small { IfOk result (λ after. after < modulus) }
{
    push_text(out, b"COLUMNS\n")?;
    let mut drawn = state;
    for column in 0..sizes.columns {
        drawn = push_column(out, sizes, column, drawn)?;
    }
    Ok(drawn)
}

fn push_right_sides(out: &mut Vec<u8>, sizes: Sizes, state: u32) -> Result<(), AllocError>
    requires state { state ≡ draw sizes.seed (draws_before sizes sizes.columns) }
    requires small { state < modulus }
    ensures { OnOk result (out.new.items ≡ out.old.items ++ right_sides_section sizes) }
{
    push_text(out, b"RHS\n")?;
    let mut drawn = state;
    for row in 0..sizes.rows {
        drawn = next_draw(drawn);
        push_right_side_line(out, row, drawn % 50 + 1)?;
    }
    Ok(())
}

fn push_pairs(out: &mut Vec<u8>, sizes: Sizes) -> Result<(), AllocError>
    ensures { OnOk result (out.new.items ≡ out.old.items ++ pairs_section sizes) }
{
    if sizes.pairs == 0 {
        return Ok(());
    }
    push_text(out, b"PAIRS\n")?;
    for pair in 0..sizes.pairs {
        push_pair_line(out, pair)?;
    }
    Ok(())
}

fn push_deck(out: &mut Vec<u8>, sizes: Sizes) -> Result<(), AllocError>
    ensures { OnOk result (out.new.items ≡ out.old.items ++ deck_text sizes) }
{
    push_name_line(out, sizes)?;
    push_rows(out, sizes)?;
    let state = push_columns(out, sizes, first_state(sizes.seed))?;
    push_right_sides(out, sizes, state)?;
    push_pairs(out, sizes)?;
    push_text(out, b"ENDATA\n")
}

/// The text of the deck of this seed with so many columns, rows and pairs. Its numbers are those
/// of a linear congruential generator, that of the Sinclair ZX81: the state is replaced by 75 times
/// the state and 74 more, modulo 65,537. Costs are 1 to 9, coefficients 0 to 9 and right sides 1
/// to 50, and pair k joins the columns 2k - 1 and 2k. So the case is bounded below; it may be
/// infeasible.
pub fn deck(
    alloc: Global,
    seed: u64,
    columns: u32,
    rows: u32,
    pairs: u32,
) -> Result<Vec<u8>, AllocError>
    requires { IsInRange columns rows pairs }
    ensures { IfOk result (λ text. text.items ≡ deck_text (record { seed = seed; columns = columns; rows = rows; pairs = pairs })) }
{
    let sizes = Sizes {
        seed,
        columns,
        rows,
        pairs,
    };
    let mut text = Vec::new(alloc);
    push_deck(&mut text, sizes)?;
    Ok(text)
}
