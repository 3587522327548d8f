//! Sums of constraints, each times its multiplier.
ghost use Rattle.std.specs.Prelude.{◌≡◌, ◌<◌, ◌≤◌, ◌^◌, ◌↔◌, ◌+ℤ◌, ◌*ℤ◌, ℕ, pos, IsTrue, All, length, slice_index_or, unsigned_abs};
ghost use Rattle.lp_base.specs.Ascending.{ascends_by, number_of};
ghost use Rattle.lp_base.specs.Numbers.{IsNarrow};
ghost use Rattle.lpcc_case.specs.Cases.{FitsCase};
ghost use Rattle.lpcc_case.specs.Points.{coefficient};
ghost use Rattle.cuts.specs.Cuts.{AreMultipliers, column_sum, right_sum};

use lp_base::{add_product, product};
use lpcc_case::{Case, MOST_COLUMNS};

/// Adds y times each term to the sum of its column.
fn add_terms(sums: &mut [i128], y: i64, terms: &[(u32, i64)])
    requires narrow { IsNarrow y }
    requires ascending { IsTrue (ascends_by number_of terms.now) }
    requires named { All (λ t. t.0 < length sums.old) terms.now }
    requires fit { All (λ t. FitsCase t.1) terms.now }
    requires room { (j : ℕ) → unsigned_abs (slice_index_or sums.old j (pos 0)) < 2 ^ 126 }
    ensures { (j : ℕ) → j < length sums.old → slice_index_or sums.new j (pos 0)
        ≡ (slice_index_or sums.old j (pos 0) +ℤ (y *ℤ coefficient terms.now j)) }
{
    for term in terms {
        let j = term.0 as usize;
        sums[j] = add_product(sums[j], y, term.1);
    }
}

/// Adds the multipliers times the coefficients to sums that are 0.
fn add_constraints(case: &Case, mult: &[(u32, i64)], sums: &mut [i128])
    requires multipliers { AreMultipliers case.now mult.now }
    requires room { case.now.columns ≤ length sums.old }
    requires zero { (j : ℕ) → slice_index_or sums.old j (pos 0) ≡ pos 0 }
    ensures { (j : ℕ) → j < length sums.old → slice_index_or sums.new j (pos 0) ≡ column_sum case.now mult.now j }
{
    let constraints = case.constraints();
    for multiplier in mult {
        let constraint = &constraints[multiplier.0 as usize];
        add_terms(sums, multiplier.1, constraint.terms.as_slice());
    }
}

/// Whether the multipliers times the coefficients are `e` times the cost, in each column. It takes no
/// memory.
pub fn is_multiple_of_cost(case: &Case, mult: &[(u32, i64)], e: i64) -> bool
    requires multipliers { AreMultipliers case.now mult.now }
    requires narrow { IsNarrow e }
    ensures { IsTrue result ↔ ((j : ℕ) → j < case.now.columns
        → column_sum case.now mult.now j ≡ (e *ℤ slice_index_or case.now.cost j (pos 0))) }
{
    let cost = case.cost();
    let mut sums = [0i128; MOST_COLUMNS];
    add_constraints(case, mult, &mut sums);
    for (j, number) in cost.iter().enumerate() {
        if sums[j] != product(e, *number) {
            return false;
        }
    }
    true
}

/// The sum of the right sides, each times its multiplier.
pub fn right_sum(case: &Case, mult: &[(u32, i64)]) -> i128
    requires { AreMultipliers case.now mult.now }
    ensures { result ≡ right_sum case.now mult.now }
{
    let constraints = case.constraints();
    let mut sum = 0;
    for multiplier in mult {
        let constraint = &constraints[multiplier.0 as usize];
        sum = add_product(sum, multiplier.1, constraint.rhs);
    }
    sum
}
