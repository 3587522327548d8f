//! Tests of no-goods and pieces against a list of sides for the first pairs.
ghost use Rattle.std.specs.Prelude.{◌≡◌, ◌↔◌, ◌⊎◌, ◌<◌, IsTrue, IfSome, IfNone, [], Some, length, slice_get, slice_index_or};
ghost use Rattle.nogoods.specs.Choices.{pairs_ascend};
ghost use Rattle.nogoods.specs.Pieces.{Bars};
ghost use Rattle.derivation.specs.Logs.{no_goods};
ghost use Rattle.search.specs.FirstPieces.{IsBarred};
ghost use Rattle.search.specs.Walks.{BarsNext};

use crate::index::Index;
use derivation::{Log, Step};
use nogoods::{Choice, Side};

fn is_kept(choice: Choice, sides: &[Side]) -> bool
    ensures { IsTrue result ↔ (slice_get sides.now choice.pair ≡ Some choice.side) }
{
    match sides.get(choice.pair as usize) {
        Some(side) => *side == choice.side,
        None => false,
    }
}

fn are_kept(choices: &[Choice], sides: &[Side]) -> bool
    ensures { IsTrue result ↔ Bars choices.now sides.now }
{
    choices.iter().all(|choice| is_kept(*choice, sides))
}

/// Whether the choices are this one behind the sides, with choices of theirs.
fn bars_next(choices: &[Choice], sides: &[Side], side: Side) -> bool
    ensures { IsTrue result → BarsNext sides.now side choices.now }
{
    let Some((last, front)) = choices.split_last() else {
        return false;
    };
    last.pair as usize == sides.len() && last.side == side && are_kept(front, sides)
}

/// The choices of a step.
pub(crate) fn choices_of(log: &Log, at: usize) -> &[Choice]
    requires { at < length (no_goods log.now) }
    ensures list { result.now ≡ slice_index_or (no_goods log.now) at [] }
    ensures ascending { IsTrue (pairs_ascend result.now) }
{
    match &log.steps()[at] {
        Step::Start(ng) => ng.choices(),
        Step::Derived(ng, _) => ng.choices(),
    }
}

/// The pair of the last choice but one, counted from 1.
fn pair_before_last(choices: &[Choice]) -> u64 {
    match choices {
        [.., before, _] => before.pair as u64 + 1,
        _ => 0,
    }
}

/// Whether the walk goes back further by these choices, or as far and by no more of them.
fn leads_further(first: &[Choice], second: &[Choice]) -> bool {
    let pair = pair_before_last(first);
    let other = pair_before_last(second);
    pair < other || pair == other && first.len() <= second.len()
}

/// That of two steps that lets the walk go back further.
fn better(log: &Log, first: Option<usize>, second: usize) -> usize
    requires first { IfSome first (λ k. k < length (no_goods log.now)) }
    requires second { second < length (no_goods log.now) }
    ensures { (result ≡ second) ⊎ (first ≡ Some result) }
{
    match first {
        Some(first) if leads_further(choices_of(log, first), choices_of(log, second)) => first,
        _ => second,
    }
}

/// The best of the steps that bar this side behind the sides, as the index has them.
pub(crate) fn find(log: &Log, index: &Index, sides: &[Side], side: Side) -> Option<usize>
    ensures { IfSome result (λ k. (k < length (no_goods log.now)) × BarsNext sides.now side (slice_index_or (no_goods log.now) k [])) }
{
    let count = log.steps().len();
    let mut found = None;
    let mut at = index.newest(sides.len(), side);
    while at < count {
        if bars_next(choices_of(log, at), sides, side) {
            found = Some(better(log, found, at));
        }
        let older = index.older(at);
        if older >= at {
            return found;
        }
        at = older;
    }
    found
}

/// A step that bars the piece.
pub(crate) fn barring(log: &Log, sides: &[Side]) -> Option<usize>
    ensures some { IfSome result (λ k. (k < length (no_goods log.now)) × Bars (slice_index_or (no_goods log.now) k []) sides.now) }
    ensures none { IfNone result (¬ (IsBarred (no_goods log.now) sides.now)) }
{
    let count = log.steps().len();
    for at in 0..count {
        if are_kept(choices_of(log, at), sides) {
            return Some(at);
        }
    }
    None
}
