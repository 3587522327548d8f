//! The objective: the cost of each column, the constant and what both are multiplied by.
ghost use Rattle.std.specs.Prelude.{◌≡◌, ◌<◌, [], All, IfErr, IfOk, IsTrue, None, OnOk, map, pos};
ghost use Rattle.std.specs.List.{range_with_len};
ghost use Rattle.lp_base.specs.Ascending.{ascends_by, number_of};
ghost use Rattle.sense.specs.Senses.{signed};
ghost use Rattle.lpcc_case.specs.Cases.{FitsCase};
ghost use Rattle.lpcc_case.specs.Points.{coefficient};
ghost use Rattle.decks.specs.declared.deck.Letter.TheVariants.{N};
ghost use Rattle.decks.specs.Decks.{IsDeckNumber, entry_column};
ghost use Rattle.deck_case.specs.CaseParts.{cost_of, numbers_of, offset_of, scale_of};
ghost use Rattle.deck_case.specs.Steps.{IsFirstOf};
ghost use Rattle.deck_case.specs.Wide.{wide_row};

use crate::CaseFault;
use crate::entries::terms;
use crate::numbers::{multiplier, whole};
use crate::signs::{all_signed, signed};
use decks::{Entry, Row};
use lp_base::Sequence;
use sense::Sense;
use std::alloc::{AllocError, Global};

/// The cost of each column and the constant, both times the scale.
#[derive(Drop)]
pub struct Objective {
    pub cost: Sequence<i64>,
    pub scale: i64,
    pub offset: i64,
}

impl Objective {
    /// No columns and no constant.
    pub fn empty(alloc: Global) -> Objective
        ensures cost { result.cost ≡ [] }
        ensures scale { result.scale ≡ pos 1 }
        ensures offset { result.offset ≡ pos 0 }
    {
        Objective {
            cost: Sequence::new(alloc),
            scale: 1,
            offset: 0,
        }
    }

    /// Makes of an objective of this sense one that is to be least.
    pub fn turn(&mut self, alloc: Global, sense: Sense) -> Result<(), AllocError>
        requires costs { All FitsCase self.old.cost }
        requires offset { FitsCase self.old.offset }
        ensures cost { OnOk result (self.new.cost ≡ map (signed sense) self.old.cost) }
        ensures scale { OnOk result (self.new.scale ≡ self.old.scale) }
        ensures offset { OnOk result (self.new.offset ≡ signed sense self.old.offset) }
    {
        self.cost = all_signed(alloc, sense, self.cost.as_slice())?;
        self.offset = signed(sense, self.offset);
        Ok(())
    }
}

/// The coefficient of each column.
fn dense(alloc: Global, columns: usize, terms: &[(u32, i64)]) -> Result<Vec<i64>, AllocError>
    requires ascending { IsTrue (ascends_by number_of terms.now) }
    requires named { All (λ t. t.0 < columns) terms.now }
    ensures { IfOk result (λ row. row.items
        ≡ map (coefficient terms.now) (range_with_len 0 columns)) }
{
    let mut row = vec![in alloc; 0; columns]?;
    for (column, value) in terms {
        row[*column as usize] = *value;
    }
    Ok(row)
}

/// The objective from its row and its entries.
pub fn objective_of_row(
    alloc: Global,
    columns: usize,
    row: &Row,
    entries: &[Entry],
) -> Result<Objective, CaseFault>
    requires letter { row.now.letter ≡ N }
    requires numbers { All IsDeckNumber (numbers_of row.now.rhs None entries.now) }
    requires ascending { IsTrue (ascends_by entry_column entries.now) }
    requires named { All (λ e. e.column < columns) entries.now }
    ensures cost { IfOk result (λ made. made.cost ≡ cost_of columns entries.now row.now) }
    ensures scale { IfOk result (λ made. made.scale ≡ pos (scale_of entries.now row.now)) }
    ensures offset { IfOk result (λ made. made.offset ≡ offset_of entries.now row.now) }
    ensures narrow { IfOk result (λ made. wide_row entries.now row.now ≡ []) }
    ensures err { IfErr result (IsFirstOf (wide_row entries.now row.now)) }
{
    let line = row.line;
    let Some(scale) = multiplier(row.rhs, None, entries) else {
        return Err(CaseFault::RowWide { line });
    };
    let Some(right) = whole(scale, row.rhs) else {
        return Err(CaseFault::RowWide { line });
    };
    let terms = terms(alloc, scale, entries, line)?;
    Ok(Objective {
        cost: Sequence::of_vec(dense(alloc, columns, terms.as_slice())?),
        scale: scale as i64,
        offset: -right,
    })
}
