//! Whether the multipliers and the choices of a cut are in place.
ghost use Rattle.std.specs.Prelude.{◌<◌, ◌↔◌, IsTrue, All, length};
ghost use Rattle.cuts.specs.Cuts.{AreMultipliers, IsIndexed, IsMultiplier};

use lp_base::is_ascending;
use lpcc_case::{Case, names_pairs};
use nogoods::NoGood;

fn name_constraints(count: usize, mult: &[(u32, i64)]) -> bool
    ensures { IsTrue result ↔ All (λ m. m.0 < count) mult.now }
{
    mult.iter().all(|m| (m.0 as usize) < count)
}

fn are_numbers(mult: &[(u32, i64)]) -> bool
    ensures { IsTrue result ↔ All (λ m. IsMultiplier m.1) mult.now }
{
    mult.iter().all(|m| m.1 != 0 && m.1 != i64::MIN)
}

fn are_multipliers(case: &Case, mult: &[(u32, i64)]) -> bool
    ensures { IsTrue result ↔ AreMultipliers case.now mult.now }
{
    is_ascending(mult) && name_constraints(case.constraints().len(), mult) && are_numbers(mult)
}

/// Whether each multiplier and each choice is in place.
pub fn is_indexed(case: &Case, ng: &NoGood, mult: &[(u32, i64)]) -> bool
    ensures { IsTrue result ↔ IsIndexed case.now ng.now mult.now }
{
    are_multipliers(case, mult) && names_pairs(case, ng.choices())
}
