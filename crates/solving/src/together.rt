//! The command over a source and a sink, with many workers.
ghost use Rattle.std.specs.Prelude.{◌≡◌, ◌⊎◌, ℕ, List, Err, Ok, Some};
ghost use Rattle.lpcc_case.specs.Instance.{Instance};
ghost use Rattle.command.specs.Inputs.{SpellsAlone};
ghost use Rattle.command.specs.Runs.{IsRun, IsWrittenFor};
ghost use Rattle.command.specs.declared.refusal.Refusal.TheVariants as refusal;
ghost use Rattle.solving.specs.Solving.{AreEnough, Says, SaysVerdict};

use crate::running::give_solution;
use command::{MOST_DECK_BYTES, Status, a_deck_alone_is_read_once, give_refusal, read_case};
use crew::solve_with;
use deck_case::verdicts_are_those_of_the_deck;
use decks::spelled_decks_keep;
use lp_io::{Sink, Source};
use lpcc_case::Case;
use play::Options;
use report::Style;
use std::alloc::Global;
use std::sync::Wait;
use std::thread::Threads;
use worker::Gate;

// Solves the case with the workers of the options, and writes how that ends.
fn solve_case_with<R: Threads + Wait + Sync, K: Sink, G: Gate + Sync>(
    rt: &R,
    alloc: Global,
    case: &Case,
    options: &Options,
    style: Style,
    gate: &G,
    out: &mut K,
) -> Status
    ensures { IsWrittenFor (Says options.now style) (Ok case.now) (K.taken out.old) (K.taken out.new) (K.faults out.old) (K.faults out.new) result
        ⊎ IsWrittenFor (Says options.now style) (Err refusal.NoMemory) (K.taken out.old) (K.taken out.new) (K.faults out.old) (K.faults out.new) result }
{
    let ending = solve_with(rt, alloc, case, options, gate);
    give_solution(alloc, case, options, style, &ending, out)
}

/// Reads a deck alone, solves it with the workers of the options, and writes what `run_solve` writes.
/// What it promises holds if it returns.
pub fn run_solve_with<R: Threads + Wait + Sync, S: Source, K: Sink, G: Gate + Sync>(
    rt: &R,
    alloc: Global,
    options: &Options,
    style: Style,
    gate: &G,
    src: &mut S,
    out: &mut K,
) -> Status
    // The deck is refused exactly for its cause, or a record of a run over its case has this ending;
    // that is written.
    ensures answered { IsRun (Says options.now style) (S.left src.old) (S.faults src.old) (S.faults src.new)
        (K.taken out.old) (K.taken out.new) (K.faults out.old) (K.faults out.new) result }

    // Status 0 is a verdict that is true of the deck, with a certificate that is accepted for it.
    ensures verdict { result ≡ 0 → (bytes : List ℕ) → S.left src.old ≡ Some bytes →
        SaysVerdict bytes options.now style (K.taken out.old) (K.taken out.new) }

    // With as many draws as there are pieces, and as many pivots as there are choices of the columns,
    // no budget is spent.
    ensures enough { (bytes : List ℕ) → S.left src.old ≡ Some bytes → (a : Instance) → SpellsAlone bytes a →
        AreEnough a options.now → result ≡ 8 → ⊥ }
{
    a_deck_alone_is_read_once();
    spelled_decks_keep();
    verdicts_are_those_of_the_deck();
    match read_case(alloc, src, MOST_DECK_BYTES) {
        Ok(case) => solve_case_with(rt, alloc, &case, options, style, gate, out),
        Err(refusal) => give_refusal(alloc, refusal, out),
    }
}
