//! A small case and one of its cuts.
ghost use Rattle.std.specs.Prelude.{◌≡◌, ℕ, pos, [], ◌∷◌, IfOk};
ghost use Rattle.pool_tests.specs.Small.{bound_of, bounds};

use lp_base::Sequence;
use lpcc_case::{Case, Constraint, Kind};
use sense::Sense;
use std::alloc::{AllocError, Global};

/// The words of the cut that adds `x >= 1` and minus `x >= 0`, tight by the choice `1a`.
pub const CUT: [u64; 10] = [1, 0, 0, 0, 1, 1, 1, 0, 18446744073709551615, 0];

/// A column is at least this number.
fn bound(alloc: Global, column: u32, rhs: i64) -> Result<Constraint, AllocError>
    ensures { IfOk result (λ made. made ≡ bound_of column rhs) }
{
    let mut terms = Sequence::new(alloc);
    terms.push((column, 1))?;
    Ok(Constraint {
        kind: Kind::Ge,
        terms,
        rhs,
    })
}

fn bounds(alloc: Global) -> Result<Sequence<Constraint>, AllocError>
    ensures { IfOk result (λ made. made ≡ bounds) }
{
    let mut made = Sequence::new(alloc);
    made.push(bound(alloc, 0, 1)?)?;
    made.push(bound(alloc, 1, 1)?)?;
    made.push(bound(alloc, 0, 0)?)?;
    made.push(bound(alloc, 1, 0)?)?;
    Ok(made)
}

fn costs(alloc: Global) -> Result<Sequence<i64>, AllocError>
    ensures { IfOk result (λ made. made ≡ pos 0 ∷ pos 0 ∷ []) }
{
    let mut made = Sequence::new(alloc);
    made.push(0)?;
    made.push(0)?;
    Ok(made)
}

fn pairs(alloc: Global) -> Result<Sequence<(u32, u32)>, AllocError>
    ensures { IfOk result (λ made. made ≡ (2, 3) ∷ []) }
{
    let mut made = Sequence::new(alloc);
    made.push((2, 3))?;
    Ok(made)
}

/// Two columns, each at least 1, with the pair of their bounds at 0.
pub fn small_case(alloc: Global) -> Result<Case, AllocError> {
    let cost = costs(alloc)?;
    let constraints = bounds(alloc)?;
    let pairs = pairs(alloc)?;
    Ok(Case::of_parts(2, cost, 1, 0, Sense::Min, constraints, pairs))
}
