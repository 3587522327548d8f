//! The dictionary at which every walk of a case begins.
ghost use Rattle.std.specs.Prelude.{◌≡◌, ◌≤◌, ◌∷◌, [], ◌++◌, ◌+◌, pos, length, map, slice_index_or, All, IfOk, OnOk};
ghost use Rattle.std.specs.List.{enumerate_from, range_with_len};
ghost use Rattle.lpcc_case.specs.Cases.{FitsCase, IsCase};
ghost use Rattle.dict.specs.Equations.{equation};
ghost use Rattle.dict.specs.Forms.{constraint_row, cost_row, nonzero, start_of, IsDictionaryOf};

use crate::dictionary::Dict;
use crate::row::Row;
use lpcc_case::{Case, Constraint, Form, MOST_COLUMNS, MOST_CONSTRAINTS};
use std::alloc::{AllocError, Global};

fn row_of_constraint(alloc: Global, constraint: &Constraint) -> Result<Row, AllocError>
    requires { FitsCase constraint.now.rhs }
    ensures { IfOk result (λ made. made ≡ constraint_row constraint.now) }
{
    let entries = Vec::from_slice(alloc, constraint.terms.as_slice())?;
    Ok(Row::of(1, -constraint.rhs, entries))
}

#[inline(always)]
fn put_cost(out: &mut Vec<(u32, i64)>, at: u32, value: i64) -> Result<(), AllocError>
    ensures { OnOk result (out.new.items ≡ out.old.items ++ nonzero ((at, value) ∷ [])) }
{
    if value != 0 {
        out.push((at, value))?;
    }
    Ok(())
}

#[inline(always)]
fn cost_at(cost: &[i64], j: usize) -> i64
    requires { j + 1 ≤ length cost.now }
    ensures { result ≡ slice_index_or cost.now j (pos 0) }
{
    cost[j]
}

fn row_of_cost(alloc: Global, cost: &[i64]) -> Result<Row, AllocError>
    requires { length cost.now ≤ MOST_COLUMNS }
    ensures { IfOk result (λ made. made ≡ equation (pos 1) (pos 0) (nonzero (enumerate_from 0 cost.now))) }
{
    let mut entries: Vec<(u32, i64)> = Vec::new(alloc);
    for j in 0..cost.len() {
        put_cost(&mut entries, j as u32, cost_at(cost, j))?;
    }
    Ok(Row::of(1, 0, entries))
}

#[inline(always)]
fn put_row(rows: &mut Vec<Row>, row: Row) -> Result<(), AllocError>
    ensures { OnOk result (rows.new.items ≡ rows.old.items ++ row ∷ []) }
{
    rows.push(row)?;
    Ok(())
}

fn rows_of_constraints(alloc: Global, constraints: &[Constraint]) -> Result<Vec<Row>, AllocError>
    requires { All (λ c. FitsCase c.rhs) constraints.now }
    ensures { IfOk result (λ rows. rows.items ≡ map constraint_row constraints.now) }
{
    let mut rows: Vec<Row> = Vec::with_capacity(alloc, constraints.len())?;
    for constraint in constraints {
        put_row(&mut rows, row_of_constraint(alloc, constraint)?)?;
    }
    Ok(rows)
}

fn rows_of(alloc: Global, case: &Case) -> Result<Vec<Row>, AllocError>
    ensures { IfOk result (λ rows. rows.items ≡ map constraint_row case.now.constraints ++ cost_row case.now ∷ []) }
{
    let mut rows = rows_of_constraints(alloc, case.constraints())?;
    put_row(&mut rows, row_of_cost(alloc, case.cost())?)?;
    Ok(rows)
}

#[inline(always)]
fn put_form(forms: &mut Vec<Form>, form: Form) -> Result<(), AllocError>
    ensures { OnOk result (forms.new.items ≡ forms.old.items ++ form ∷ []) }
{
    forms.push(form)?;
    Ok(())
}

fn basic_of(alloc: Global, constraints: usize) -> Result<Vec<Form>, AllocError>
    requires { constraints ≤ MOST_CONSTRAINTS }
    ensures { IfOk result (λ forms. forms.items ≡ map Form.Con (range_with_len 0 constraints) ++ Form.Cost ∷ []) }
{
    let mut forms: Vec<Form> = Vec::with_capacity(alloc, constraints + 1)?;
    for i in 0..constraints {
        put_form(&mut forms, Form::Con(i as u32))?;
    }
    put_form(&mut forms, Form::Cost)?;
    Ok(forms)
}

fn nonbasic_of(alloc: Global, columns: u32) -> Result<Vec<Form>, AllocError>
    ensures { IfOk result (λ forms. forms.items ≡ map Form.Col (range_with_len 0 columns)) }
{
    let mut forms: Vec<Form> = Vec::with_capacity(alloc, columns as usize)?;
    for j in 0..columns {
        put_form(&mut forms, Form::Col(j))?;
    }
    Ok(forms)
}

impl Dict {
    /// The dictionary with the columns as its nonbasic forms: constraint i in row i, the cost in
    /// the last row, column j at place j, each row over the denominator 1.
    pub fn start(alloc: Global, case: &Case) -> Result<Dict, AllocError>
        ensures start { IfOk result (λ made. made ≡ start_of case.now) }
        ensures of { IfOk result (λ made. IsDictionaryOf case.now made) }
    {
        let rows = rows_of(alloc, case)?;
        let basic = basic_of(alloc, case.constraints().len())?;
        let nonbasic = nonbasic_of(alloc, case.columns())?;
        Ok(Dict::of_parts(rows, basic, nonbasic, case.columns()))
    }
}
