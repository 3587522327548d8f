//! The deck of a linear complementarity problem.
ghost use Rattle.std.specs.Prelude.{◌≡◌, ◌<◌, ◌+◌, ◌++◌, ◌∷◌, IfOk, OnOk, pos};
ghost use Rattle.std.specs.List.{flat_map, range_with_len};
ghost use Rattle.decks.specs.Bounds.{default_column};
ghost use Rattle.decks.specs.declared.deck.Letter.TheVariants.{N};
ghost use Rattle.front_text.specs.Problems.{IsLcp, coefficient_at};
ghost use Rattle.kkt_front.specs.Decks.{block, entry_if, lcp_deck, lcp_entries, lcp_pair, lcp_row, listed, row};
ghost use Rattle.kkt_front.specs.DeckTexts.{row_of};

use crate::parts::{pair, push_default_columns, push_entry, push_entry_if};
use decks::{Column, Deck, Entry, Letter, PairLine, Row};
use kkt_front::{Lcp, coefficient_at};
use lp_base::Sequence;
use lp_nums::Frac;
use sense::Sense;
use std::alloc::{AllocError, Global};

// A row for each number of q.
fn push_rows(rows: &mut Sequence<Row>, lcp: &Lcp) -> Result<(), AllocError>
    requires { IsLcp lcp.now }
    ensures { OnOk result (rows.new ≡ rows.old ++ listed (lcp_row lcp.now) lcp.now.size) }
{
    for i in 0..lcp.size {
        rows.push(Row {
            letter: Letter::G,
            line: 4 + i,
            rhs: Frac::whole(-i128::from(lcp.q.as_slice()[i as usize])),
            range: None,
        })?;
    }
    Ok(())
}

fn rows(alloc: Global, lcp: &Lcp) -> Result<Sequence<Row>, AllocError>
    requires { IsLcp lcp.now }
    ensures { IfOk result (λ made. made ≡ row N 3 (pos 0) ∷ listed (lcp_row lcp.now) lcp.now.size) }
{
    let mut made = Sequence::new(alloc);
    made.push(Row {
        letter: Letter::N,
        line: 3,
        rhs: Frac::whole(0),
        range: None,
    })?;
    push_rows(&mut made, lcp)?;
    Ok(made)
}

fn columns(alloc: Global, lcp: &Lcp) -> Result<Sequence<Column>, AllocError>
    ensures { IfOk result (λ made. made ≡ listed (λ j. default_column) lcp.now.size) }
{
    let mut made = Sequence::new(alloc);
    push_default_columns(&mut made, lcp.size)?;
    Ok(made)
}

fn push_row_entry(
    entries: &mut Sequence<Entry>,
    lcp: &Lcp,
    j: u32,
    i: u32,
) -> Result<(), AllocError>
    requires rules { IsLcp lcp.now }
    requires there { i < lcp.now.size }
    ensures { OnOk result (entries.new ≡ entries.old ++ entry_if j (1 + i) (coefficient_at (row_of lcp.now i) j)) }
{
    let terms = lcp.rows.as_slice()[i as usize].as_slice();
    push_entry_if(entries, j, 1 + i, coefficient_at(terms, j))
}

fn push_block(entries: &mut Sequence<Entry>, lcp: &Lcp, j: u32) -> Result<(), AllocError>
    requires { IsLcp lcp.now }
    ensures { OnOk result (entries.new ≡ entries.old ++ block j 1 (λ i. coefficient_at (row_of lcp.now i) j) lcp.now.size) }
{
    for i in 0..lcp.size {
        push_row_entry(entries, lcp, j, i)?;
    }
    Ok(())
}

fn push_column(entries: &mut Sequence<Entry>, lcp: &Lcp, j: u32) -> Result<(), AllocError>
    requires { IsLcp lcp.now }
    ensures { OnOk result (entries.new ≡ entries.old ++ lcp_entries lcp.now j) }
{
    push_entry(entries, j, 0, 0)?;
    push_block(entries, lcp, j)
}

fn entries(alloc: Global, lcp: &Lcp) -> Result<Sequence<Entry>, AllocError>
    requires { IsLcp lcp.now }
    ensures { IfOk result (λ made. made ≡ flat_map (lcp_entries lcp.now) (range_with_len 0 lcp.now.size)) }
{
    let mut made = Sequence::new(alloc);
    for j in 0..lcp.size {
        push_column(&mut made, lcp, j)?;
    }
    Ok(made)
}

fn pairs(alloc: Global, lcp: &Lcp) -> Result<Sequence<PairLine>, AllocError>
    ensures { IfOk result (λ made. made ≡ listed lcp_pair lcp.now.size) }
{
    let mut made = Sequence::new(alloc);
    for i in 0..lcp.size {
        made.push(pair(1 + i, i))?;
    }
    Ok(made)
}

/// The deck of a linear complementarity problem that a text spells, as a value. Its lines are not
/// counted: that of ENDATA has the number 0.
pub fn lcp_as_deck(alloc: Global, lcp: &Lcp) -> Result<Deck, AllocError>
    requires { IsLcp lcp.now }
    ensures { IfOk result (λ made. made ≡ lcp_deck lcp.now 0) }
{
    Ok(Deck {
        sense: Sense::Min,
        rows: rows(alloc, lcp)?,
        objective: 0,
        columns: columns(alloc, lcp)?,
        entries: entries(alloc, lcp)?,
        pairs: pairs(alloc, lcp)?,
        groups: Sequence::new(alloc),
        end_line: 0,
    })
}
