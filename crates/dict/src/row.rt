//! Rows, each a sparse list of entries over a denominator of its own.
ghost use Rattle.std.specs.Prelude.{◌≡◌, ◌<◌, ◌^◌, pos, length, slice_index_or, unsigned_abs};
ghost use Rattle.lp_base.specs.Numbers.{IsNarrow, narrow_bound};
ghost use Rattle.lpcc_case.specs.Points.{coefficient};
ghost use Rattle.dict.specs.Terms.{AreTerms};
ghost use Rattle.dict.specs.Equations.{equation};

use std::marker::Model;

/// A row: its denominator times a form is the sum of its entries times the nonbasic forms at
/// their places, and its constant. Contracts see this equation.
pub struct Row {
    denominator: i64,
    constant: i64,
    entries: Vec<(u32, i64)>,
}

/// By a call, which keeps the models of the functions small that own one.
impl Drop for Row {
    fn drop(self) {
        let Row {
            denominator: _,
            constant: _,
            entries: _,
        } = self;
    }
}

impl Model for Row {
    ghost use Rattle.dict.specs.Equations.{Equation, equation};

    ghost Value = { Equation };

    ghost view = { λ r. equation r.denominator r.constant r.entries.items };
}

impl Row {
    #[inline(always)]
    pub fn of(denominator: i64, constant: i64, entries: Vec<(u32, i64)>) -> Row
        ensures { result ≡ equation denominator constant entries.items }
    {
        Row {
            denominator,
            constant,
            entries,
        }
    }

    #[inline(always)]
    pub fn denominator(&self) -> i64
        ensures { result ≡ self.now.den }
    {
        self.denominator
    }

    #[inline(always)]
    pub fn constant(&self) -> i64
        ensures { result ≡ self.now.constant }
    {
        self.constant
    }

    /// The entries that are not zero, in the order of places.
    #[inline(always)]
    pub fn entries(&self) -> &[(u32, i64)]
        ensures { result.now ≡ self.now.entries }
    {
        &self.entries
    }
}

#[inline(always)]
pub fn term_at(list: &[(u32, i64)], i: usize) -> (u32, i64)
    requires { i < length list.now }
    ensures { result ≡ slice_index_or list.now i (0, pos 0) }
{
    list[i]
}

/// The number at a place.
#[inline(always)]
pub fn number_in(entries: &[(u32, i64)], e: u32, places: u32) -> i64
    requires { AreTerms narrow_bound 0 places entries.now }
    ensures value { result ≡ coefficient entries.now e }
    ensures narrow { IsNarrow result }
{
    for i in 0..entries.len() {
        let term = term_at(entries, i);
        if term.0 == e {
            return term.1;
        }
        if term.0 > e {
            return 0;
        }
    }
    0
}
