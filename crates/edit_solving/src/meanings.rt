//! Which edit a command means.
ghost use Rattle.std.specs.Prelude.{◌≡◌, ◌<◌, ◌+◌, ℕ, ℤ, All, IfOk, List, MatchOption, pos};
ghost use Rattle.lp_base.specs.Numbers.{IsNarrow};
ghost use Rattle.case_edits.specs.Edits.{AreTerms};
ghost use Rattle.cert_check.specs.Acceptance.{numbers_of};
ghost use Rattle.edit_text.specs.Scripts.{IsCommand, IsTerm};
ghost use Rattle.edit_text.specs.declared.script.Command.TheVariants as command_of;
ghost use Rattle.edit_solving.specs.Meanings.{AreNamed, AreOwn, IsOwnEdit, kind_of, signed};

use case_edits::Edit;
use edit_text::{Command, Relation};
use lp_base::{Sequence, is_ascending};
use lpcc_case::{Case, Constraint, Kind};
use std::alloc::{AllocError, Global};

fn kind_of(relation: Relation) -> Kind
    ensures { result ≡ kind_of relation }
{
    match relation {
        Relation::Ge | Relation::Le => Kind::Ge,
        Relation::Eq => Kind::Eq,
    }
}

// The number, with its sign changed for `at most`.
fn signed(relation: Relation, number: i64) -> i64
    requires { IsNarrow number }
    ensures { result ≡ signed relation number }
{
    match relation {
        Relation::Le => -number,
        Relation::Ge | Relation::Eq => number,
    }
}

// What is the number of, counted from 0, where there are so many, and `number` counts from 1.
fn place_of(number: i64, count: u32) -> Option<u32>
    ensures { MatchOption result ((k : ℕ) → number ≡ pos (k + 1) → k < count → ⊥) (λ k. (number ≡ pos (k + 1)) × (k < count)) }
{
    if number < 1 || number > i64::from(count) {
        return None;
    }
    Some((number - 1) as u32)
}

// The columns that the terms name, with their coefficients.
fn named_terms(
    alloc: Global,
    columns: u32,
    relation: Relation,
    terms: &[(i64, i64)],
) -> Result<Option<Sequence<(u32, i64)>>, AllocError>
    requires { All IsTerm terms.now }
    ensures { IfOk result (λ named. MatchOption named
        ((ts : List (ℕ × ℤ)) → AreNamed relation terms.now ts → AreTerms columns ts → ⊥)
        (AreOwn columns relation terms.now)) }
{
    let mut named = Sequence::new(alloc);
    for term in terms {
        let Some(column) = place_of(term.0, columns) else {
            return Ok(None);
        };
        named.push((column, signed(relation, term.1)))?;
    }
    Ok(Some(named))
}

// The same where the columns ascend.
fn terms_of(
    alloc: Global,
    columns: u32,
    relation: Relation,
    terms: &[(i64, i64)],
) -> Result<Option<Sequence<(u32, i64)>>, AllocError>
    requires { All IsTerm terms.now }
    ensures { IfOk result (λ named. MatchOption named
        ((ts : List (ℕ × ℤ)) → AreNamed relation terms.now ts → AreTerms columns ts → ⊥)
        (λ ts. AreOwn columns relation terms.now ts × AreTerms columns ts)) }
{
    let Some(named) = named_terms(alloc, columns, relation, terms)? else {
        return Ok(None);
    };
    if is_ascending(named.as_slice()) {
        return Ok(Some(named));
    }
    Ok(None)
}

// A number for each column: the term's, or 0.
fn cost_of(alloc: Global, columns: u32, terms: &[(u32, i64)]) -> Result<Sequence<i64>, AllocError>
    requires terms { AreTerms columns terms.now }
    requires narrow { All (λ t. IsNarrow t.1) terms.now }
    ensures { IfOk result (λ cost. cost ≡ numbers_of columns terms.now) }
{
    let mut cost = vec![in alloc; 0; columns as usize]?;
    for term in terms {
        cost[term.0 as usize] = term.1;
    }
    Ok(Sequence::of_vec(cost))
}

fn addition(
    alloc: Global,
    case: &Case,
    relation: Relation,
    rhs: i64,
    terms: &[(i64, i64)],
) -> Result<Option<Edit>, AllocError>
    requires rhs { IsNarrow rhs }
    requires terms { All IsTerm terms.now }
    ensures { IfOk result (λ edit. IsOwnEdit case.now (command_of.Add relation rhs terms.now) edit) }
{
    let Some(terms) = terms_of(alloc, case.columns(), relation, terms)? else {
        return Ok(None);
    };
    Ok(Some(Edit::Add(Constraint {
        kind: kind_of(relation),
        terms,
        rhs: signed(relation, rhs),
    })))
}

fn tightening(case: &Case, number: i64, rhs: i64) -> Option<Edit>
    ensures { IsOwnEdit case.now (command_of.Tighten number rhs) result }
{
    let _pairs = case.pairs();
    let con = place_of(number, case.constraints().len() as u32)?;
    Some(Edit::Tighten { con, rhs })
}

fn costing(alloc: Global, case: &Case, terms: &[(i64, i64)]) -> Result<Option<Edit>, AllocError>
    requires { All IsTerm terms.now }
    ensures { IfOk result (λ edit. IsOwnEdit case.now (command_of.Cost terms.now) edit) }
{
    let columns = case.columns();
    let Some(named) = terms_of(alloc, columns, Relation::Ge, terms)? else {
        return Ok(None);
    };
    let cost = cost_of(alloc, columns, named.as_slice())?;
    Ok(Some(Edit::Cost(cost)))
}

/// The edit that the command means, where the case has what it names. A command that is answered means
/// none.
pub fn edit_of(alloc: Global, case: &Case, command: &Command) -> Result<Option<Edit>, AllocError>
    requires { IsCommand command.now }
    ensures { IfOk result (λ edit. IsOwnEdit case.now command.now edit) }
{
    match command {
        Command::Add {
            relation,
            rhs,
            terms,
        } => addition(alloc, case, *relation, *rhs, terms.as_slice()),
        Command::Tighten { con, rhs } => Ok(tightening(case, *con, *rhs)),
        Command::Cost { terms } => costing(alloc, case, terms.as_slice()),
        Command::Solve => Ok(None),
    }
}
