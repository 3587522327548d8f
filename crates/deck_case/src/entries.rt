//! The entries of each row, and their terms.
ghost use Rattle.std.specs.Prelude.{◌≡◌, ◌<◌, ◌≤◌, [], All, IfErr, IfOk, false, map, replicate};
ghost use Rattle.std.specs.List.{range_with_len};
ghost use Rattle.lp_base.specs.declared.limits.TheConstants.{LARGEST_OF_CASE};
ghost use Rattle.decks.specs.Decks.{entries_of};
ghost use Rattle.deck_case.specs.CaseParts.{coefficients, terms_of};
ghost use Rattle.deck_case.specs.Steps.{IsClearedBy, IsFirstOf};
ghost use Rattle.deck_case.specs.Wide.{has_wide, named};

use crate::CaseFault;
use crate::numbers::whole;
use decks::Entry;
use lp_base::Sequence;
use std::alloc::{AllocError, Global};

/// Columns with their coefficients, none of which is zero.
pub type Terms = Sequence<(u32, i64)>;

fn empty_lists(alloc: Global, count: usize) -> Result<Vec<Sequence<Entry>>, AllocError>
    ensures { IfOk result (λ lists. lists.items ≡ replicate count []) }
{
    let mut lists = Vec::with_capacity(alloc, count)?;
    for _ in 0..count {
        lists.push(Sequence::new(alloc))?;
    }
    Ok(lists)
}

/// The entries of each row, by one pass over all of them.
pub fn entries_by_row(
    alloc: Global,
    rows: usize,
    entries: &[Entry],
) -> Result<Vec<Sequence<Entry>>, AllocError>
    requires { All (λ e. e.row < rows) entries.now }
    ensures { IfOk result (λ lists. lists.items
        ≡ map (entries_of entries.now) (range_with_len 0 rows)) }
{
    let mut lists = empty_lists(alloc, rows)?;
    for entry in entries {
        lists[entry.row as usize].push(*entry)?;
    }
    Ok(lists)
}

/// The terms of entries times a multiplier that clears them. An explicit zero gives none.
pub fn terms(
    alloc: Global,
    multiplier: u64,
    entries: &[Entry],
    line: u32,
) -> Result<Terms, CaseFault>
    requires positive { 0 < multiplier }
    requires narrow { multiplier ≤ LARGEST_OF_CASE }
    requires clears { All (λ e. IsClearedBy multiplier e.value) entries.now }
    ensures ok { IfOk result (λ made. made ≡ terms_of multiplier entries.now) }
    ensures narrow { IfOk result (λ made. has_wide (coefficients made) ≡ false) }
    ensures err { IfErr result (IsFirstOf (named line
        (coefficients (terms_of multiplier entries.now)))) }
{
    let mut made = Sequence::new(alloc);
    for entry in entries {
        if entry.value.num() == 0 {
            continue;
        }
        let Some(coefficient) = whole(multiplier, entry.value) else {
            return Err(CaseFault::RowWide { line });
        };
        made.push((entry.column, coefficient))?;
    }
    Ok(made)
}
