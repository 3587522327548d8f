//! Reading a cut from its words.
ghost use Rattle.std.specs.Prelude.{◌≡◌, ◌≢◌, ◌<◌, ◌≤◌, ◌+◌, ◌^◌, ◌↔◌, ℕ, ℤ, List, [], All, IsTrue, IfOk, IfSome, IsSome, MatchOption, length, take, slice_index};
ghost use Rattle.std.specs.Int.{cast_unsigned};
ghost use mir.Syntax.{w64};
ghost use Rattle.nogoods.specs.declared.choice.Choice.{Choice};
ghost use Rattle.nogoods.specs.Choices.{pairs_ascend};
ghost use Rattle.lp_base.specs.declared.limits.TheConstants.{MOST_CONSTRAINTS, MOST_PAIRS};
ghost use Rattle.cuts.specs.Cuts.{AreMultipliers, IsMultiplier};
ghost use Rattle.cut_words.specs.Words.{item_length, AreWordsOf, IsInPlace, SpellsCut};
ghost use Rattle.cut_words.specs.Reading.{elements, side_of, choice_of, multiplier_of, IsNarrowWord, AreChoiceWords, AreMultiplierWords, cut_of, IsHead, AreParts};
ghost use Rattle.cut_words.specs.declared.read.Kind.{Kind};

use crate::put::{halves, word_of};
use cuts::{Cut, right_sum};
use lp_base::Sequence;
use lpcc_case::{Case, MOST_CONSTRAINTS, MOST_PAIRS};
use nogoods::{Choice, NoGood, Side};
use std::alloc::{AllocError, Global};

/// Of which kind a cut is, with the bound of a point cut.
#[derive(Clone, Copy)]
pub enum Kind {
    Ray,
    Point { e: i64, v: i128 },
}

fn side_of(word: u64) -> Side
    ensures { result ≡ side_of word }
{
    if word == 1 { Side::A } else { Side::B }
}

fn are_sides(words: &[u64]) -> bool
    ensures { IsTrue result ↔ All (λ w. w ≤ 2) words.now }
{
    words.iter().all(|word| *word <= 2)
}

/// The word of the least number, which is not narrow.
const LEAST: u64 = 1 << 63;

fn are_narrow(words: &[u64]) -> bool
    ensures { IsTrue result ↔ All IsNarrowWord words.now }
{
    words.iter().all(|word| *word != LEAST)
}

/// Lists the choices of these words, one for each pair, and gives their number.
#[tactic(auto, using(crate::proofs::Elements::read_more, crate::proofs::Elements::read_skip))]
fn list_choices(words: &[u64], into: &mut [Choice]) -> usize
    requires room { length words.now ≤ length into.old }
    requires few { length words.now < 2 ^ 32 }
    ensures count { result ≤ length words.now }
    ensures size { length into.new ≡ length into.old }
    ensures list { take result into.new ≡ elements choice_of 0 words.now }
{
    let mut count = 0;
    for k in 0..words.len() {
        if words[k] != 0 {
            into[count] = Choice {
                pair: k as u32,
                side: side_of(words[k]),
            };
            count += 1;
        }
    }
    count
}

/// Lists the multipliers of these words, one for each constraint, and gives their number.
#[tactic(auto, using(crate::proofs::Elements::read_more, crate::proofs::Elements::read_skip))]
fn list_multipliers(words: &[u64], into: &mut [(u32, i64)]) -> usize
    requires room { length words.now ≤ length into.old }
    requires few { length words.now < 2 ^ 32 }
    ensures count { result ≤ length words.now }
    ensures size { length into.new ≡ length into.old }
    ensures list { take result into.new ≡ elements multiplier_of 0 words.now }
{
    let mut count = 0;
    for k in 0..words.len() {
        if words[k] != 0 {
            into[count] = (k as u32, words[k].cast_signed());
            count += 1;
        }
    }
    count
}

/// Reads the choices from their words, one for each pair. None where no choices have these words.
#[tactic(auto, using(crate::proofs::Readings::choices_sides))]
fn read_choices(words: &[u64], into: &mut [Choice]) -> Option<usize>
    requires room { length words.now ≤ length into.old }
    requires few { length words.now < 2 ^ 32 }
    ensures size { length into.new ≡ length into.old }
    ensures read { MatchOption result ((ng : List Choice) → AreChoiceWords words.now ng → ⊥)
        (λ n. (n ≤ length into.old) × AreChoiceWords words.now (take n into.new)) }
{
    if !are_sides(words) {
        return None;
    }
    Some(list_choices(words, into))
}

/// Reads the multipliers from their words, one for each constraint. None where no multipliers have
/// these words.
#[tactic(auto, using(crate::proofs::Readings::multipliers_narrow))]
fn read_multipliers(words: &[u64], into: &mut [(u32, i64)]) -> Option<usize>
    requires room { length words.now ≤ length into.old }
    requires few { length words.now < 2 ^ 32 }
    ensures size { length into.new ≡ length into.old }
    ensures read { MatchOption result ((mult : List (ℕ × ℤ)) → AreMultiplierWords words.now mult → ⊥)
        (λ n. (n ≤ length into.old) × AreMultiplierWords words.now (take n into.new)) }
{
    if !are_narrow(words) {
        return None;
    }
    Some(list_multipliers(words, into))
}

fn same_words(a: &[u64], b: &[u64]) -> bool
    ensures { IsTrue result ↔ (a.now ≡ b.now) }
{
    a == b
}

/// Whether a number is narrow and not 0.
fn is_multiplier(number: i64) -> bool
    ensures { IsTrue result ↔ IsMultiplier number }
{
    number != 0 && number != i64::MIN
}

/// Reads of which kind a cut with these multipliers and so many choices is, from the five words of
/// its head. None where these are the words of no such cut.
#[tactic(auto, using(crate::proofs::Readings::no_kind, crate::proofs::Readings::other_kind))]
fn read_kind(case: &Case, head: &[u64], choices: usize, mult: &[(u32, i64)]) -> Option<Kind>
    requires multipliers { AreMultipliers case.now mult.now }
    requires head { length head.now ≡ 5 }
    ensures { MatchOption result ((kind : Kind) → IsHead case.now head.now kind choices mult.now → ⊥)
        (λ kind. IsHead case.now head.now kind choices mult.now) }
{
    let count = choices as u64;
    if same_words(head, &[1, 0, 0, 0, count]) {
        return Some(Kind::Ray);
    }
    let e = head[1].cast_signed();
    if !is_multiplier(e) {
        return None;
    }
    let v = right_sum(case, mult);
    let (low, high) = halves(v);
    if !same_words(head, &[2, word_of(e), low, high, count]) {
        return None;
    }
    Some(Kind::Point { e, v })
}

/// What was read of an item: its kind, and how many choices and multipliers.
#[derive(Clone, Copy)]
pub struct Parts {
    pub kind: Kind,
    pub choices: usize,
    pub multipliers: usize,
}

/// Reads the parts of the cut that has these words. None where they are the words of no cut.
#[tactic(auto, using(crate::proofs::Readings::nones))]
pub fn read_parts(
    case: &Case,
    words: &[u64],
    choices: &mut [Choice],
    mult: &mut [(u32, i64)],
) -> Option<Parts>
    requires choices { MOST_PAIRS ≤ length choices.old }
    requires multipliers { MOST_CONSTRAINTS ≤ length mult.old }
    ensures sizes { (length choices.new ≡ length choices.old) × (length mult.new ≡ length mult.old) }
    ensures read { MatchOption result (SpellsCut case.now words.now → ⊥)
        (λ p. AreParts case.now words.now p choices.new mult.new) }
{
    let pairs = case.pairs().len();
    let constraints = case.constraints().len();
    if words.len() != 5 + pairs + constraints {
        return None;
    }
    let (head, rest) = words.split_at(5);
    let (of_pairs, of_constraints) = rest.split_at(pairs);
    let count = read_choices(of_pairs, choices)?;
    let multipliers = read_multipliers(of_constraints, mult)?;
    let Some(kind) = read_kind(case, head, count, &mult[..multipliers]) else {
        return None;
    };
    Some(Parts {
        kind,
        choices: count,
        multipliers,
    })
}

fn cut_of(kind: Kind, ng: NoGood, mult: Sequence<(u32, i64)>) -> Cut
    ensures { result ≡ cut_of kind ng mult }
{
    match kind {
        Kind::Ray => Cut::Ray { ng, mult },
        Kind::Point { e, v } => Cut::Point { ng, mult, e, v },
    }
}

fn copy_cut(
    alloc: Global,
    kind: Kind,
    choices: &[Choice],
    mult: &[(u32, i64)],
) -> Result<Cut, AllocError>
    requires { IsTrue (pairs_ascend choices.now) }
    ensures { IfOk result (λ cut. cut ≡ cut_of kind choices.now mult.now) }
{
    let Some(ng) = NoGood::from_choices(alloc, choices)? else {
        unreachable!();
    };
    let mult = Sequence::of_vec(Vec::from_slice(alloc, mult)?);
    Ok(cut_of(kind, ng, mult))
}

/// Reads a cut from its words. None exactly where they are no words of a cut whose parts are in
/// place: whether it passes the test is not asked. The words are those of `to_words`, of any number.
pub fn from_words(alloc: Global, case: &Case, words: &[u64]) -> Result<Option<Cut>, AllocError>
    ensures cut { IfOk result (λ found. IfSome found (λ cut. IsInPlace case.now cut × AreWordsOf case.now cut words.now)) }
    ensures exact { IfOk result (λ found. IsSome found ↔ SpellsCut case.now words.now) }
{
    let mut choices = [Choice::default(); MOST_PAIRS];
    let mut mult = [(0, 0); MOST_CONSTRAINTS];
    let Some(parts) = read_parts(case, words, &mut choices, &mut mult) else {
        return Ok(None);
    };
    let choices = &choices[..parts.choices];
    let mult = &mult[..parts.multipliers];
    Ok(Some(copy_cut(alloc, parts.kind, choices, mult)?))
}
