//! Pairs as numbers of constraints.
ghost use Rattle.std.specs.Prelude.{◌≡◌, ◌≤◌, ◌++◌, ◌∷◌, [], IfOk, OnOk, All, MatchOption, length, map};
ghost use Rattle.std.specs.List.{range_with_len};
ghost use Rattle.lp_base.specs.declared.limits.TheConstants.{MOST_CONSTRAINTS};
ghost use Rattle.decks.specs.Decks.{IsDeck, NamesQuantity, group_pairs, pairs_made, twos};
ghost use Rattle.deck_case.specs.CaseParts.{constraints_of};
ghost use Rattle.deck_case.specs.DeckCases.{before_column, before_row, pair_of, side_number, side_place, upper_place};
ghost use Rattle.deck_case.specs.Steps.{AreFirsts, pair_with};

use decks::{Column, Deck, Letter, PairLine, Quantity, Row};
use lp_base::Sequence;
use std::alloc::{AllocError, Global};

/// The place of a pair's side among the constraints of its row.
fn side_place(row: &Row) -> usize
    ensures { result ≡ side_place row.now }
{
    if row.letter == Letter::L && row.range.is_some() {
        1
    } else {
        0
    }
}

/// The place of the upper constraint of a column among its constraints.
fn upper_place(column: &Column) -> usize
    ensures { result ≡ upper_place column.now }
{
    if column.lower.value.is_some() { 1 } else { 0 }
}

fn side_number(deck: &Deck, rows: &[usize], columns: &[usize], quantity: Quantity) -> u32
    requires deck { IsDeck deck.now }
    requires rows { rows.now ≡ map (before_row deck.now) (range_with_len 0 (length deck.now.rows)) }
    requires columns { columns.now
        ≡ map (before_column deck.now) (range_with_len 0 (length deck.now.columns)) }
    requires few { length (constraints_of deck.now) ≤ MOST_CONSTRAINTS }
    requires named { NamesQuantity deck.now quantity }
    ensures { result ≡ side_number deck.now quantity }
{
    match quantity {
        Quantity::Col(column) => columns[column as usize] as u32,
        Quantity::Upc(column) => {
            let place = upper_place(&deck.columns.as_slice()[column as usize]);
            (columns[column as usize] + place) as u32
        }
        Quantity::Row(row) => {
            let place = side_place(&deck.rows.as_slice()[row as usize]);
            (rows[row as usize] + place) as u32
        }
    }
}

/// Adds the sides of a pair.
fn push_pair(
    deck: &Deck,
    rows: &[usize],
    columns: &[usize],
    pair: PairLine,
    made: &mut Sequence<(u32, u32)>,
) -> Result<(), AllocError>
    requires firsts { AreFirsts deck.now rows.now columns.now }
    requires first { NamesQuantity deck.now pair.a }
    requires second { NamesQuantity deck.now pair.b }
    ensures { OnOk result (made.new ≡ made.old ++ pair_of deck.now pair ∷ []) }
{
    let a = side_number(deck, rows, columns, pair.a);
    let b = side_number(deck, rows, columns, pair.b);
    made.push((a, b))
}

/// Adds the pairs of PAIRS.
fn push_pairs(
    deck: &Deck,
    rows: &[usize],
    columns: &[usize],
    made: &mut Sequence<(u32, u32)>,
) -> Result<(), AllocError>
    requires { AreFirsts deck.now rows.now columns.now }
    ensures { OnOk result (made.new ≡ made.old ++ map (pair_of deck.now) deck.now.pairs) }
{
    for pair in deck.pairs.as_slice() {
        push_pair(deck, rows, columns, *pair, made)?;
    }
    Ok(())
}

/// Adds the pairs of a quantity with each of the others.
fn push_with(
    deck: &Deck,
    rows: &[usize],
    columns: &[usize],
    first: Quantity,
    others: &[Quantity],
    made: &mut Sequence<(u32, u32)>,
) -> Result<(), AllocError>
    requires firsts { AreFirsts deck.now rows.now columns.now }
    requires first { NamesQuantity deck.now first }
    requires others { All (NamesQuantity deck.now) others.now }
    ensures { OnOk result (made.new
        ≡ made.old ++ map (pair_of deck.now) (map (pair_with first) others.now)) }
{
    for other in others {
        let pair = PairLine {
            a: first,
            b: *other,
        };
        push_pair(deck, rows, columns, pair, made)?;
    }
    Ok(())
}

/// The first quantity and the others, if there is one.
fn split_first(items: &[Quantity]) -> Option<(Quantity, &[Quantity])>
    ensures { MatchOption result (items.now ≡ []) (λ p. items.now ≡ p.0 ∷ p.1.now) }
{
    match items {
        [] => None,
        [first, others @ ..] => Some((*first, others)),
    }
}

/// Adds the pairs of each two of a group's items.
fn push_twos(
    deck: &Deck,
    rows: &[usize],
    columns: &[usize],
    items: &[Quantity],
    made: &mut Sequence<(u32, u32)>,
) -> Result<(), AllocError>
    requires firsts { AreFirsts deck.now rows.now columns.now }
    requires items { All (NamesQuantity deck.now) items.now }
    ensures { OnOk result (made.new ≡ made.old ++ map (pair_of deck.now) (twos items.now)) }
{
    let mut rest = items;
    while let Some((first, others)) = split_first(rest) {
        push_with(deck, rows, columns, first, others, made)?;
        rest = others;
    }
    Ok(())
}

/// Adds the pairs of the groups.
fn push_groups(
    deck: &Deck,
    rows: &[usize],
    columns: &[usize],
    made: &mut Sequence<(u32, u32)>,
) -> Result<(), AllocError>
    requires { AreFirsts deck.now rows.now columns.now }
    ensures { OnOk result (made.new
        ≡ made.old ++ map (pair_of deck.now) (group_pairs deck.now.groups)) }
{
    for group in deck.groups.as_slice() {
        push_twos(deck, rows, columns, group.items.as_slice(), made)?;
    }
    Ok(())
}

/// The pairs as numbers of constraints, where `rows` and `columns` have for each row and column
/// the number of the first of its constraints.
pub fn numbers(
    alloc: Global,
    deck: &Deck,
    rows: &[usize],
    columns: &[usize],
) -> Result<Sequence<(u32, u32)>, AllocError>
    requires deck { IsDeck deck.now }
    requires rows { rows.now ≡ map (before_row deck.now) (range_with_len 0 (length deck.now.rows)) }
    requires columns { columns.now
        ≡ map (before_column deck.now) (range_with_len 0 (length deck.now.columns)) }
    requires few { length (constraints_of deck.now) ≤ MOST_CONSTRAINTS }
    ensures { IfOk result (λ made. made ≡ map (pair_of deck.now) (pairs_made deck.now)) }
{
    let mut made = Sequence::new(alloc);
    push_pairs(deck, rows, columns, &mut made)?;
    push_groups(deck, rows, columns, &mut made)?;
    Ok(made)
}
