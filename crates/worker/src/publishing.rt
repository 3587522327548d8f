//! Publishing cuts in the lane of a worker.
ghost use Rattle.std.specs.Prelude.{◌≡◌, ◌≤◌, ◌↔◌, IsTrue, List, length};
ghost use Rattle.nogoods.specs.declared.choice.Side.{Side};
ghost use Rattle.cuts.specs.Cuts.{Passes};
ghost use Rattle.cut_words.specs.Words.{AreWordsOf, SpellsPassing, item_length};
ghost use Rattle.desk.specs.Settling.{HasReadAll};
ghost use Rattle.worker.specs.Turns.{CutPasses, HasOwnCut, IsSameBut, Publishes};

use cut_pool::Reach;
use cut_words::{are_passing_words, to_words};
use cuts::Cut;
use lpcc_case::Case;
use play::Outcome;

/// Whether these words may be published: there is room for them, and they are those of a cut that
/// passes.
fn may_publish(case: &Case, reach: &Reach, words: &[u64]) -> bool
    ensures { IsTrue result ↔ ((1 ≤ reach.now.spare) × SpellsPassing case.now words.now) }
{
    reach.spare() != 0 && are_passing_words(case, words)
}

/// Publishes a cut that passes. False comes exactly where there is no room for it, or its words are
/// not those of a cut that passes, since its factor on the cost is wider than they tell; then nothing
/// has changed.
pub fn publish(case: &Case, reach: &mut Reach, words: &mut [u64], cut: &Cut) -> bool
    requires case { reach.old.case ≡ case.now }
    requires passes { Passes case.now cut.now }
    requires length { length words.old ≡ item_length case.now }
    ensures words { AreWordsOf case.now cut.now words.new }
    ensures answer { IsTrue result ↔ ((1 ≤ reach.old.spare) × SpellsPassing case.now words.new) }
    ensures published { IsTrue result → Publishes words.new reach.old reach.new }
    ensures refused { (IsTrue result → ⊥) → reach.new ≡ reach.old }
    ensures same { IsSameBut reach.old reach.new }
    ensures length { length words.new ≡ length words.old }
{
    to_words(case, cut, words);
    if !may_publish(case, reach, words) {
        return false;
    }
    reach.publish(words);
    true
}

/// Publishes the cut of an outcome of the worker's own, if it has one, and tells whether it was
/// published. What was read stays read.
pub fn publish_outcome(case: &Case, reach: &mut Reach, words: &mut [u64], outcome: &Outcome) -> bool
    requires case { reach.old.case ≡ case.now }
    requires passes { CutPasses case.now outcome.now }
    requires length { length words.old ≡ item_length case.now }
    ensures answer { HasOwnCut outcome.now → (IsTrue result ↔ ((1 ≤ reach.old.spare) × SpellsPassing case.now words.new)) }
    ensures published { IsTrue result → Publishes words.new reach.old reach.new }
    ensures refused { (IsTrue result → ⊥) → reach.new ≡ reach.old }
    ensures same { (reach.new.worker ≡ reach.old.worker) × (reach.new.case ≡ reach.old.case) × (length reach.new.lanes ≡ length reach.old.lanes) }
    ensures read { (piece : List Side) → HasReadAll reach.old piece → HasReadAll reach.new piece }
    ensures length { length words.new ≡ length words.old }
{
    match outcome {
        Outcome::Cut { cut, .. } => publish(case, reach, words, cut),
        _ => false,
    }
}
