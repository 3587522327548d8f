//! Which line is the last to hint at each line.
ghost use Rattle.std.specs.Prelude.{◌≡◌, ◌+◌, ◌==◌, ◌∷◌, ◌++◌, ◌<◌, [], ℕ, IfOk, OnOk, if◌then◌else◌, length, slice_index_or};
ghost use Rattle.migrating.specs.Making.{AreLastHinted, AreLast, AreRows, hints_in, noted};

use cert_text::CertLine;
use lp_base::Sequence;
use std::alloc::{AllocError, Global};

// Writes this number for each of these lines. There is none beyond the last.
fn note_hints(last: &mut Vec<usize>, number: usize, hints: &[u64])
    ensures { last.new.items ≡ noted last.old.items number hints.now }
{
    for hint in hints {
        if let Some(place) = last.get_mut(*hint as usize) {
            *place = number;
        }
    }
}

// The lines at which a line hints.
fn hints_of(line: &CertLine) -> &[u64]
    ensures { result.now ≡ hints_in line.now }
{
    match line {
        CertLine::Derived { hints, .. } => hints.as_slice(),
        CertLine::Ray { .. } | CertLine::Point { .. } => &[],
    }
}

// For each line the number of the last line that hints at it, from 1, or 0.
fn last_hints(alloc: Global, lines: &[CertLine]) -> Result<Vec<usize>, AllocError>
    ensures { IfOk result (λ last. AreLast lines.now last.items) }
{
    let mut last = vec![in alloc; 0; lines.len()]?;
    for (at, line) in lines.iter().enumerate() {
        note_hints(&mut last, at + 1, hints_of(line));
    }
    Ok(last)
}

// So many empty lists.
fn empty_rows(alloc: Global, count: usize) -> Result<Vec<Sequence<u64>>, AllocError>
    ensures size { IfOk result (λ rows. length rows.items ≡ count) }
    ensures empty { IfOk result (λ rows. (k : ℕ) → slice_index_or rows.items k [] ≡ []) }
{
    let mut rows = Vec::new(alloc);
    for _ in 0..count {
        rows.push(Sequence::new(alloc))?;
    }
    Ok(rows)
}

// A line more in the list before this number, if there is one.
fn add_to_row(rows: &mut Vec<Sequence<u64>>, number: usize, line: u64) -> Result<(), AllocError>
    ensures size { OnOk result (length rows.new.items ≡ length rows.old.items) }
    ensures each { OnOk result ((k : ℕ) → k < length rows.old.items →
        slice_index_or rows.new.items k [] ≡ slice_index_or rows.old.items k [] ++ (if number == k + 1 then line ∷ [] else [])) }
{
    if number == 0 {
        return Ok(());
    }
    match rows.get_mut(number - 1) {
        Some(row) => row.push(line),
        None => Ok(()),
    }
}

// The lines of each number, from 1 on.
fn rows_of(alloc: Global, last: &[usize]) -> Result<Vec<Sequence<u64>>, AllocError>
    ensures { IfOk result (λ rows. AreRows last.now (length last.now) rows.items) }
{
    let mut rows = empty_rows(alloc, last.len())?;
    for (line, number) in last.iter().enumerate() {
        add_to_row(&mut rows, *number, line as u64)?;
    }
    Ok(rows)
}

/// For each line the lines at which it is the last to hint.
pub fn dropped_lines(alloc: Global, lines: &[CertLine]) -> Result<Vec<Sequence<u64>>, AllocError>
    ensures { IfOk result (λ rows. AreLastHinted lines.now rows.items) }
{
    let last = last_hints(alloc, lines)?;
    rows_of(alloc, last.as_slice())
}
