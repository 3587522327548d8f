//! The test of a cut, on its words.
ghost use Rattle.std.specs.Prelude.{◌≡◌, ◌↔◌, IsTrue};
ghost use Rattle.lp_base.specs.Numbers.{IsNarrow};
ghost use Rattle.cuts.specs.Cuts.{IsIndexed, Passes, right_sum};
ghost use Rattle.cuts.specs.declared.cut.Cut.TheVariants as cuts_of;
ghost use Rattle.cut_words.specs.Words.{SpellsPassing};
ghost use Rattle.cut_words.specs.Reading.{HasKind, cut_of};

use crate::read::{Kind, read_parts};
use cuts::{has_signs, is_multiple_of_cost, right_sum};
use lpcc_case::{Case, MOST_CONSTRAINTS, MOST_PAIRS};
use nogoods::Choice;

fn passes_ray(case: &Case, choices: &[Choice], mult: &[(u32, i64)]) -> bool
    requires { IsIndexed case.now choices.now mult.now }
    ensures { IsTrue result ↔ Passes case.now (cuts_of.Ray choices.now mult.now) }
{
    if !has_signs(case, choices, mult) {
        return false;
    }
    if !is_multiple_of_cost(case, mult, 0) {
        return false;
    }
    right_sum(case, mult) > 0
}

fn passes_point(case: &Case, choices: &[Choice], mult: &[(u32, i64)], e: i64, v: i128) -> bool
    requires indexed { IsIndexed case.now choices.now mult.now }
    requires narrow { IsNarrow e }
    requires bound { right_sum case.now mult.now ≡ v }
    ensures { IsTrue result ↔ Passes case.now (cuts_of.Point choices.now mult.now e v) }
{
    if !has_signs(case, choices, mult) {
        return false;
    }
    if e < 1 {
        return false;
    }
    is_multiple_of_cost(case, mult, e)
}

fn passes(case: &Case, kind: Kind, choices: &[Choice], mult: &[(u32, i64)]) -> bool
    requires indexed { IsIndexed case.now choices.now mult.now }
    requires parts { HasKind case.now mult.now kind }
    ensures { IsTrue result ↔ Passes case.now (cut_of kind choices.now mult.now) }
{
    match kind {
        Kind::Ray => passes_ray(case, choices, mult),
        Kind::Point { e, v } => passes_point(case, choices, mult, e, v),
    }
}

/// Whether these are the words of a cut that passes the test of `check_cut`. It takes no memory.
#[tactic(auto, using(crate::proofs::Readings::passing_spells))]
pub fn are_passing_words(case: &Case, words: &[u64]) -> bool
    ensures { IsTrue result ↔ SpellsPassing case.now words.now }
{
    let mut choices = [Choice::default(); MOST_PAIRS];
    let mut mult = [(0, 0); MOST_CONSTRAINTS];
    let Some(parts) = read_parts(case, words, &mut choices, &mut mult) else {
        return false;
    };
    let choices = &choices[..parts.choices];
    let mult = &mult[..parts.multipliers];
    passes(case, parts.kind, choices, mult)
}
