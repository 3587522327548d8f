//! Dictionaries and their pivots.
ghost use Rattle.std.specs.Prelude.{◌≡◌, ◌≢◌, ◌≤ℤ◌, ◌<◌, ◌^◌, ℕ, ℤ, pos, length, IfErr, OnOk, OnErr};
ghost use Rattle.lp_base.specs.Numbers.{IsNarrow, narrow_bound};
ghost use Rattle.lpcc_case.specs.Instance.{Instance};
ghost use Rattle.dict.specs.Terms.{AreTerms};
ghost use Rattle.dict.specs.Dictionaries.{row_at, form_at, entry_at, AreRows, AllHold, basic_after, nonbasic_after, IsDictionary, IsCause};
ghost use Rattle.dict.specs.Forms.{IsDictionaryOf};

use crate::fault::{PivotFault, Wide};
use crate::pivot::pivot_rows;
use crate::row::{Row, number_in};
use lpcc_case::Form;
use std::marker::Model;

/// A dictionary: for each basic form a row over the nonbasic forms, narrow and without a common
/// divisor above 1. Contracts see its rows and its two lists of forms.
pub struct Dict {
    rows: Vec<Row>,
    basic: Vec<Form>,
    nonbasic: Vec<Form>,
    columns: u32,
}

/// By a call, which keeps the models of the functions small that own one.
impl Drop for Dict {
    fn drop(self) {
        let Dict {
            rows: _,
            basic: _,
            nonbasic: _,
            columns: _,
        } = self;
    }
}

impl Model for Dict {
    ghost use Rattle.dict.specs.Dictionaries.{Dictionary, IsDictionary};

    ghost Value = { Dictionary };

    ghost view = { λ d. record { rows = d.rows.items; basic = d.basic.items; nonbasic = d.nonbasic.items } };

    ghost invariant = { λ d. IsDictionary d.columns (record { rows = d.rows.items; basic = d.basic.items; nonbasic = d.nonbasic.items }) };
}

impl Dict {
    pub(crate) fn of_parts(
        rows: Vec<Row>,
        basic: Vec<Form>,
        nonbasic: Vec<Form>,
        columns: u32,
    ) -> Dict
        requires { IsDictionary columns (record { rows = rows.items; basic = basic.items; nonbasic = nonbasic.items }) }
        ensures { result ≡ record { rows = rows.items; basic = basic.items; nonbasic = nonbasic.items } }
    {
        Dict {
            rows,
            basic,
            nonbasic,
            columns,
        }
    }

    /// Exchanges the basic form of the row with the nonbasic form of the column, over an entry
    /// that is not zero. Each row is then the same identity over the new nonbasic forms, narrow
    /// and without a common divisor. After a fault the dictionary is as before.
    pub fn pivot(&mut self, row: u32, col: u32) -> Result<(), PivotFault>
        requires row { row < length self.old.rows }
        requires col { col < length self.old.nonbasic }
        requires entry { entry_at self.old row col ≢ pos 0 }
        ensures basic { OnOk result (self.new.basic ≡ basic_after row col self.old) }
        ensures nonbasic { OnOk result (self.new.nonbasic ≡ nonbasic_after row col self.old) }
        ensures size { OnOk result (length self.new.rows ≡ length self.old.rows) }
        ensures rows { OnOk result (AreRows (length self.new.nonbasic) self.new.rows) }
        ensures holds { OnOk result ((m : Form → ℤ) → (one : ℤ) → AllHold m one self.old → AllHold m one self.new) }
        ensures keeps { OnOk result ((a : Instance) → IsDictionaryOf a self.old → IsDictionaryOf a self.new) }
        ensures cause { IfErr result (IsCause row col self.old) }
        ensures unchanged { OnErr result (self.new ≡ self.old) }
    {
        match pivot_rows(&mut self.rows, row as usize, col, self.columns) {
            Err(fault) => Err(PivotFault::NoMemory(fault)),
            Ok(Err(at)) => Err(PivotFault::Wide(Wide {
                row,
                col,
                at_row: at.0,
                at_col: at.1,
            })),
            Ok(Ok(_)) => {
                let leaving = self.basic[row as usize];
                self.basic[row as usize] = self.nonbasic[col as usize];
                self.nonbasic[col as usize] = leaving;
                Ok(())
            },
        }
    }

    /// The number of rows.
    pub fn rows(&self) -> u32
        ensures { result ≡ length self.now.rows }
    {
        self.rows.len() as u32
    }

    /// The number of columns, which is that of the nonbasic forms.
    pub fn columns(&self) -> u32
        ensures { result ≡ length self.now.nonbasic }
    {
        self.columns
    }

    /// The nonbasic forms, one for each column.
    pub fn nonbasic_forms(&self) -> &[Form]
        ensures list { result.now ≡ self.now.nonbasic }
        ensures kept { IsDictionary (length self.now.nonbasic) self.now }
    {
        self.nonbasic.as_slice()
    }

    /// The entry of a row at a column, over the denominator of the row.
    pub fn entry(&self, row: u32, col: u32) -> i64
        requires { row < length self.now.rows }
        ensures value { result ≡ entry_at self.now row col }
        ensures narrow { IsNarrow result }
    {
        number_in(self.rows[row as usize].entries(), col, self.columns)
    }

    /// The entries of a row that are not zero, each with its column, in the order of columns.
    pub fn entries(&self, row: u32) -> &[(u32, i64)]
        requires { row < length self.now.rows }
        ensures list { result.now ≡ (row_at self.now.rows row).entries }
        ensures terms { AreTerms narrow_bound 0 (length self.now.nonbasic) result.now }
    {
        self.rows[row as usize].entries()
    }

    /// The constant of a row, over the denominator of the row.
    pub fn constant(&self, row: u32) -> i64
        requires { row < length self.now.rows }
        ensures value { result ≡ (row_at self.now.rows row).constant }
        ensures narrow { IsNarrow result }
    {
        self.rows[row as usize].constant()
    }

    /// The denominator of a row, at least 1.
    pub fn denominator(&self, row: u32) -> i64
        requires { row < length self.now.rows }
        ensures value { result ≡ (row_at self.now.rows row).den }
        ensures positive { pos 1 ≤ℤ result }
        ensures narrow { IsNarrow result }
    {
        self.rows[row as usize].denominator()
    }

    /// The basic form of a row.
    pub fn basic(&self, row: u32) -> Form
        requires { row < length self.now.rows }
        ensures { result ≡ form_at self.now.basic row }
    {
        self.basic[row as usize]
    }

    /// The nonbasic form at a column.
    pub fn nonbasic(&self, col: u32) -> Form
        requires { col < length self.now.nonbasic }
        ensures { result ≡ form_at self.now.nonbasic col }
    {
        self.nonbasic[col as usize]
    }
}
