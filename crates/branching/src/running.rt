//! The command over a source and a sink.
ghost use Rattle.std.specs.Prelude.{◌≡◌, ◌⊎◌, ℕ, IfOk, List, Err, Ok, Some};
ghost use Rattle.lpcc_case.specs.Instance.{Instance};
ghost use Rattle.command.specs.Inputs.{SpellsAlone};
ghost use Rattle.command.specs.Runs.{IsRun, IsWrittenFor};
ghost use Rattle.command.specs.declared.refusal.Refusal.TheVariants as refusal;
ghost use Rattle.tree_engine.specs.Answers.{HasNodes, IsBranch, IsWholeTree};
ghost use Rattle.branching.specs.Branching.{AreEnough, HasPivots, IsWholeStage, NoneIsWide, Says, SaysVerdict};

use crate::endings::{answer_text, status_of};
use command::{
    MOST_DECK_BYTES, Status, a_deck_alone_is_read_once, give, give_no_memory, give_refusal,
    read_case,
};
use deck_case::verdicts_are_those_of_the_deck;
use decks::spelled_decks_keep;
use lp_io::{Sink, Source};
use lpcc_case::Case;
use std::alloc::{AllocError, Global};
use tree_engine::{Branch, BranchOptions, branch};

// Searches the case by branching. Enough nodes and enough pivots are never spent.
fn search(alloc: Global, case: &Case, options: &BranchOptions) -> Result<Branch, AllocError>
    ensures answer { IfOk result (IsBranch case.now options.now) }
    ensures enough { IsWholeTree case.now options.now → IfOk result HasNodes }
    ensures pivots { IsWholeStage case.now options.now → IfOk result HasPivots }
{
    let _pairs = case.pairs();
    branch(alloc, case, options)
}

// Searches the case by branching, and writes the answer.
fn give_answer<K: Sink>(
    alloc: Global,
    case: &Case,
    options: &BranchOptions,
    brief: bool,
    out: &mut K,
) -> Status
    ensures { IsWrittenFor (Says options.now brief) (Ok case.now) (K.taken out.old) (K.taken out.new) (K.faults out.old) (K.faults out.new) result
        ⊎ IsWrittenFor (Says options.now brief) (Err refusal.NoMemory) (K.taken out.old) (K.taken out.new) (K.faults out.old) (K.faults out.new) result }
{
    let Ok(answer) = search(alloc, case, options) else {
        return give_no_memory(out);
    };
    match answer_text(alloc, case, options, brief, &answer) {
        Ok(text) => give(text.as_slice(), status_of(&answer), out),
        Err(_) => give_no_memory(out),
    }
}

/// Reads a deck alone, solves it by branching, and writes the verdict with its certificate, or why
/// there is none; answers the status that a program ends with. It takes no handle, and always
/// returns.
pub fn run_tree<S: Source, K: Sink>(
    alloc: Global,
    options: &BranchOptions,
    brief: bool,
    src: &mut S,
    out: &mut K,
) -> Status
    // The deck is refused exactly for its cause, or a search over its case has this answer; that is
    // written.
    ensures answered { IsRun (Says options.now brief) (S.left src.old) (S.faults src.old) (S.faults src.new)
        (K.taken out.old) (K.taken out.new) (K.faults out.old) (K.faults out.new) result }

    // Status 0 is a verdict that is true of the deck, with a certificate that is accepted for it.
    ensures verdict { result ≡ 0 → (bytes : List ℕ) → S.left src.old ≡ Some bytes →
        SaysVerdict bytes brief (K.taken out.old) (K.taken out.new) }

    // With as many nodes as a tree over all pairs has, and as many pivots as there are choices of the
    // columns, no budget is spent.
    ensures enough { (bytes : List ℕ) → S.left src.old ≡ Some bytes → (a : Instance) → SpellsAlone bytes a →
        AreEnough a options.now → result ≡ 8 → ⊥ }

    // An overflow comes only where the next step of a walk of a piece leads to a wide dictionary.
    ensures narrow { (bytes : List ℕ) → S.left src.old ≡ Some bytes → (a : Instance) → SpellsAlone bytes a →
        NoneIsWide a → result ≡ 7 → ⊥ }
{
    a_deck_alone_is_read_once();
    spelled_decks_keep();
    verdicts_are_those_of_the_deck();
    match read_case(alloc, src, MOST_DECK_BYTES) {
        Ok(case) => give_answer(alloc, &case, options, brief, out),
        Err(refusal) => give_refusal(alloc, refusal, out),
    }
}
