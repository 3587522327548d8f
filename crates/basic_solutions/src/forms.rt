//! The nonbasic forms of a dictionary, in their order.
ghost use Rattle.std.specs.Prelude.{◌≡◌, ◌<◌, ◌+◌, ◌++◌, ◌∷◌, [], ℕ, length, map, IfOk, OnOk, IsTrue, IsPermutation};
ghost use Rattle.lp_base.specs.Ascending.{ascends_by};
ghost use Rattle.dict.specs.Dictionaries.{form_at, nonbasic_after};
ghost use Rattle.walks.specs.Duals.{IsNamed, IsPlaced};
ghost use Rattle.lpcc_case.specs.Forms.{number};
ghost use Rattle.walks.specs.Steps.{IsSized};
ghost use Rattle.basic_solutions.specs.Orders.{form_of};

use dict::Dict;
use lp_base::Sequence;
use lpcc_case::{Case, Form};
use std::alloc::{AllocError, Global};

/// The number of a column or a constraint in the order of forms.
#[inline(always)]
fn number_of(case: &Case, form: Form) -> u32
    requires { IsNamed case.now form }
    ensures { result ≡ number case.now form }
{
    let _constraints = case.constraints();
    match form {
        Form::Col(j) => j,
        Form::Con(k) => case.columns() + k,
        Form::Cost => unreachable!(),
    }
}

#[inline(always)]
fn put_number(numbers: &mut Vec<u32>, x: u32) -> Result<(), AllocError>
    ensures { OnOk result (numbers.new.items ≡ numbers.old.items ++ x ∷ []) }
{
    numbers.push(x)?;
    Ok(())
}

fn numbers_of(alloc: Global, case: &Case, forms: &[Form]) -> Result<Vec<u32>, AllocError>
    requires { (j : ℕ) → j < length forms.now → IsNamed case.now (form_at forms.now j) }
    ensures { IfOk result (λ numbers. numbers.items ≡ map (number case.now) forms.now) }
{
    let mut numbers: Vec<u32> = Vec::with_capacity(alloc, forms.len())?;
    for form in forms {
        put_number(&mut numbers, number_of(case, *form))?;
    }
    Ok(numbers)
}

#[inline(always)]
fn put_form(forms: &mut Vec<Form>, case: &Case, x: u32) -> Result<(), AllocError>
    ensures { OnOk result (forms.new.items ≡ forms.old.items ++ form_of case.now x ∷ []) }
{
    let columns = case.columns();
    if x < columns {
        forms.push(Form::Col(x))?;
    } else {
        forms.push(Form::Con(x - columns))?;
    }
    Ok(())
}

fn forms_of(alloc: Global, case: &Case, numbers: &[u32]) -> Result<Vec<Form>, AllocError>
    ensures { IfOk result (λ forms. forms.items ≡ map (form_of case.now) numbers.now) }
{
    let mut forms: Vec<Form> = Vec::with_capacity(alloc, numbers.len())?;
    for x in numbers {
        put_form(&mut forms, case, *x)?;
    }
    Ok(forms)
}

/// The forms, of which none stands twice, in their order.
fn in_order(alloc: Global, case: &Case, forms: &[Form]) -> Result<Sequence<Form>, AllocError>
    requires named { (j : ℕ) → j < length forms.now → IsNamed case.now (form_at forms.now j) }
    requires once { (i j : ℕ) → i < length forms.now → j < length forms.now → form_at forms.now i ≡ form_at forms.now j → i ≡ j }
    ensures same { IfOk result (λ made. IsPermutation forms.now made) }
    ensures order { IfOk result (λ made. IsTrue (ascends_by (number case.now) made)) }
{
    let mut numbers = numbers_of(alloc, case, forms)?;
    numbers.sort_unstable();
    let made = forms_of(alloc, case, &numbers)?;
    Ok(Sequence::of_vec(made))
}

/// The nonbasic forms: columns first, then constraints, both by number.
pub fn nonbasic_forms(alloc: Global, case: &Case, dict: &Dict) -> Result<Sequence<Form>, AllocError>
    requires sized { IsSized case.now dict.now }
    requires placed { IsPlaced case.now dict.now }
    ensures same { IfOk result (λ forms. IsPermutation dict.now.nonbasic forms) }
    ensures order { IfOk result (λ forms. IsTrue (ascends_by (number case.now) forms)) }
{
    in_order(alloc, case, dict.nonbasic_forms())
}

fn forms_after(alloc: Global, dict: &Dict, row: u32, col: u32) -> Result<Vec<Form>, AllocError>
    requires row { row < length dict.now.rows }
    requires col { col < length dict.now.nonbasic }
    ensures { IfOk result (λ forms. forms.items ≡ nonbasic_after row col dict.now) }
{
    let mut forms = Vec::from_slice(alloc, dict.nonbasic_forms())?;
    forms[col as usize] = dict.basic(row);
    Ok(forms)
}

/// The nonbasic forms after the form of a row is exchanged with that of a column.
pub fn nonbasic_forms_after(
    alloc: Global,
    case: &Case,
    dict: &Dict,
    row: u32,
    col: u32,
) -> Result<Sequence<Form>, AllocError>
    requires sized { IsSized case.now dict.now }
    requires placed { IsPlaced case.now dict.now }
    requires row { row < length case.now.constraints }
    requires col { col < length dict.now.nonbasic }
    ensures same { IfOk result (λ forms. IsPermutation (nonbasic_after row col dict.now) forms) }
    ensures order { IfOk result (λ forms. IsTrue (ascends_by (number case.now) forms)) }
{
    let forms = forms_after(alloc, dict, row, col)?;
    in_order(alloc, case, &forms)
}
