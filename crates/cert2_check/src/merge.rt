//! Terms of two lists, in the order of their numbers.
ghost use Rattle.std.specs.Prelude.{◌≡◌, ◌+◌, ◌<◌, ◌∷◌, [], IfOk, IsTrue, MatchOption, length, nat_lt};
ghost use Rattle.lp_base.specs.Ascending.{ascends_by, number_of};
ghost use Rattle.cert2_text.specs.Wholes.{together};
ghost use Rattle.cert2_check.specs.Results2.{IsNextTerm};

use lp_base::Sequence;
use std::alloc::{AllocError, Global};

/// A number of a constraint, with a multiplier.
pub type Term = (u32, i64);

// The next term of two lists, and what is left of each.
fn next_term<'a>(list: &'a [Term], own: &'a [Term]) -> Option<(&'a Term, &'a [Term], &'a [Term])>
    requires list_ascends { IsTrue (ascends_by number_of list.now) }
    requires own_ascends { IsTrue (ascends_by number_of own.now) }
    ensures { MatchOption result (together list.now own.now ≡ []) (λ n. IsNextTerm list.now own.now n.0.now n.1.now n.2.now) }
{
    let Some((term, rest)) = list.split_first() else {
        return next_own(list, own);
    };
    let Some((other, others)) = own.split_first() else {
        return Some((term, rest, own));
    };
    if is_before(other, term) {
        return Some((other, list, others));
    }
    Some((term, rest, own))
}

fn is_before(term: &Term, other: &Term) -> bool
    ensures { result ≡ nat_lt term.now.0 other.now.0 }
{
    term.0 < other.0
}

// Where no list is left.
fn next_own<'a>(list: &'a [Term], own: &'a [Term]) -> Option<(&'a Term, &'a [Term], &'a [Term])>
    requires none { list.now ≡ [] }
    requires own_ascends { IsTrue (ascends_by number_of own.now) }
    ensures { MatchOption result (together list.now own.now ≡ []) (λ n. IsNextTerm list.now own.now n.0.now n.1.now n.2.now) }
{
    let Some((term, rest)) = own.split_first() else {
        return None;
    };
    Some((term, list, rest))
}

/// The terms of both lists in the order of their numbers. The time is linear in both.
pub fn merged(alloc: Global, list: &[Term], own: &[Term]) -> Result<Sequence<Term>, AllocError>
    requires list_ascends { IsTrue (ascends_by number_of list.now) }
    requires own_ascends { IsTrue (ascends_by number_of own.now) }
    ensures { IfOk result (λ all. all ≡ together list.now own.now) }
{
    let mut all = Sequence::new(alloc);
    let mut list = list;
    let mut own = own;
    while let Some((term, list_left, own_left)) = next_term(list, own) {
        all.push(*term)?;
        list = list_left;
        own = own_left;
    }
    Ok(all)
}
