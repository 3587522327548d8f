//! Constraints of one end.
ghost use Rattle.std.specs.Prelude.{◌≡◌, ◌<◌, ◌≤◌, ◌++◌, All, IfOk, IfSome, OnOk, unsigned_abs};
ghost use Rattle.std.specs.Option.{option_map, option_to_list};
ghost use Rattle.lp_base.specs.declared.limits.TheConstants.{LARGEST_OF_CASE};
ghost use Rattle.deck_case.specs.CaseParts.{at_least, at_most, equal_to, negated};
ghost use Rattle.deck_case.specs.Steps.{IsNarrowTerm};

use crate::entries::Terms;
use lp_base::Sequence;
use lpcc_case::{Constraint, Kind};
use std::alloc::{AllocError, Global};

/// The sum of the terms is at least the right side.
pub fn at_least(terms: Terms, rhs: i64) -> Constraint
    ensures { result ≡ at_least terms rhs }
{
    Constraint {
        kind: Kind::Ge,
        terms,
        rhs,
    }
}

/// The sum of the terms is the right side.
pub fn equal_to(terms: Terms, rhs: i64) -> Constraint
    ensures { result ≡ equal_to terms rhs }
{
    Constraint {
        kind: Kind::Eq,
        terms,
        rhs,
    }
}

/// The terms with their signs changed.
fn negated(alloc: Global, terms: &[(u32, i64)]) -> Result<Terms, AllocError>
    requires { All IsNarrowTerm terms.now }
    ensures { IfOk result (λ made. made ≡ negated terms.now) }
{
    let mut made = Sequence::new(alloc);
    for (column, coefficient) in terms {
        made.push((*column, -*coefficient))?;
    }
    Ok(made)
}

/// Adds that the sum of the terms is at least the end, if there is one.
pub fn push_lower(
    alloc: Global,
    terms: &Terms,
    end: Option<i64>,
    made: &mut Vec<Constraint>,
) -> Result<(), AllocError>
    ensures { OnOk result (made.new.items
        ≡ made.old.items ++ option_to_list (option_map (at_least terms.now) end)) }
{
    if let Some(end) = end {
        made.push(at_least(terms.copy(alloc)?, end))?;
    }
    Ok(())
}

/// Adds that the sum of the terms is at most the end, if there is one, with all signs changed.
pub fn push_upper(
    alloc: Global,
    terms: &Terms,
    end: Option<i64>,
    made: &mut Vec<Constraint>,
) -> Result<(), AllocError>
    requires terms { All IsNarrowTerm terms.now }
    requires end { IfSome end (λ b. unsigned_abs b ≤ LARGEST_OF_CASE) }
    ensures { OnOk result (made.new.items
        ≡ made.old.items ++ option_to_list (option_map (at_most terms.now) end)) }
{
    if let Some(end) = end {
        made.push(at_least(negated(alloc, terms.as_slice())?, -end))?;
    }
    Ok(())
}
