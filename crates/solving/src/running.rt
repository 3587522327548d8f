//! The command over a source and a sink.
ghost use Rattle.std.specs.Prelude.{◌≡◌, ◌≢◌, ◌⊎◌, ℕ, List, Err, Ok, Some, false, true};
ghost use Rattle.lpcc_case.specs.Instance.{Instance};
ghost use Rattle.play.specs.declared.ending.Ending.TheVariants as ways;
ghost use Rattle.engine.specs.Solved.{IsSolved, PiecesLast, PivotsLast, VerdictsAreShown, alone};
ghost use Rattle.report.specs.Endings.{CanBeWritten};
ghost use Rattle.command.specs.Inputs.{SpellsAlone};
ghost use Rattle.command.specs.Runs.{IsRun, IsWrittenFor};
ghost use Rattle.command.specs.declared.refusal.Refusal.TheVariants as refusal;
ghost use Rattle.solving.specs.Solving.{AreEnough, HasFewLines, Says, SaysVerdict};

use cert_text::Cert;
use command::{
    MOST_DECK_BYTES, Status, a_deck_alone_is_read_once, give, give_no_memory, give_refusal,
    read_case,
};
use deck_case::verdicts_are_those_of_the_deck;
use decks::spelled_decks_keep;
use engine::solve_alone;
use lp_io::{Sink, Source};
use lpcc_case::Case;
use play::{Ending, Options, Workers};
use report::{Style, status_of, text_of};
use std::alloc::Global;

// How many no-good lines the certificate of an ending has.
fn line_count(ending: &Ending) -> usize
    ensures { HasFewLines ending.now }
{
    match ending {
        Ending::Verdict {
            cert: Cert::Optimal { lines, .. },
            ..
        } => lines.len(),
        Ending::Verdict {
            cert: Cert::Infeasible { lines },
            ..
        } => lines.len(),
        _ => 0,
    }
}

// Writes how a run over the case ended.
fn give_ending<K: Sink>(
    alloc: Global,
    case: &Case,
    options: &Options,
    style: Style,
    ending: &Ending,
    out: &mut K,
) -> Status
    requires ended { IsSolved case.now options.now ending.now }
    requires some { ending.now ≢ ways.NoMemory }
    requires shown { VerdictsAreShown case.now options.now ending.now }
    requires pieces { PiecesLast case.now options.now ending.now }
    requires pivots { PivotsLast case.now options.now ending.now }
    requires form { CanBeWritten ending.now }
    ensures { IsWrittenFor (Says options.now style) (Ok case.now) (K.taken out.old) (K.taken out.new) (K.faults out.old) (K.faults out.new) result
        ⊎ IsWrittenFor (Says options.now style) (Err refusal.NoMemory) (K.taken out.old) (K.taken out.new) (K.faults out.old) (K.faults out.new) result }
{
    let _lines = line_count(ending);
    match text_of(alloc, case, ending, style) {
        Ok(text) => give(text.as_slice(), status_of(ending), out),
        Err(_) => give_no_memory(out),
    }
}

fn is_short(ending: &Ending) -> bool
    ensures short { result ≡ true → ending.now ≡ ways.NoMemory }
    ensures not_short { result ≡ false → ending.now ≢ ways.NoMemory }
{
    matches!(ending, Ending::NoMemory)
}

// Writes how a run over the case with these options ended, be it for want of memory.
pub(crate) fn give_solution<K: Sink>(
    alloc: Global,
    case: &Case,
    options: &Options,
    style: Style,
    ending: &Ending,
    out: &mut K,
) -> Status
    requires ended { IsSolved case.now options.now ending.now }
    requires shown { VerdictsAreShown case.now options.now ending.now }
    requires pieces { PiecesLast case.now options.now ending.now }
    requires pivots { PivotsLast case.now options.now ending.now }
    ensures { IsWrittenFor (Says options.now style) (Ok case.now) (K.taken out.old) (K.taken out.new) (K.faults out.old) (K.faults out.new) result
        ⊎ IsWrittenFor (Says options.now style) (Err refusal.NoMemory) (K.taken out.old) (K.taken out.new) (K.faults out.old) (K.faults out.new) result }
{
    if is_short(ending) {
        return give_no_memory(out);
    }
    give_ending(alloc, case, options, style, ending, out)
}

// The same options for one worker.
fn alone(options: &Options) -> Options
    ensures { result ≡ alone options.now }
{
    Options {
        workers: Workers::one(),
        ..*options
    }
}

// Solves the case with one worker, and writes how that ends.
fn solve_case<K: Sink>(
    alloc: Global,
    case: &Case,
    options: &Options,
    style: Style,
    out: &mut K,
) -> Status
    ensures { IsWrittenFor (Says (alone options.now) style) (Ok case.now) (K.taken out.old) (K.taken out.new) (K.faults out.old) (K.faults out.new) result
        ⊎ IsWrittenFor (Says (alone options.now) style) (Err refusal.NoMemory) (K.taken out.old) (K.taken out.new) (K.faults out.old) (K.faults out.new) result }
{
    let ending = solve_alone(alloc, case, options);
    give_solution(alloc, case, &alone(options), style, &ending, out)
}

/// Reads a deck alone, solves it with one worker, and writes the verdict with its certificate, or
/// why there is none; answers the status that a program ends with. It takes no handle, and always
/// returns.
pub fn run_solve<S: Source, K: Sink>(
    alloc: Global,
    options: &Options,
    style: Style,
    src: &mut S,
    out: &mut K,
) -> Status
    // The deck is refused exactly for its cause, or a record of a run over its case has this ending;
    // that is written.
    ensures answered { IsRun (Says (alone options.now) style) (S.left src.old) (S.faults src.old) (S.faults src.new)
        (K.taken out.old) (K.taken out.new) (K.faults out.old) (K.faults out.new) result }

    // Status 0 is a verdict that is true of the deck, with a certificate that is accepted for it.
    ensures verdict { result ≡ 0 → (bytes : List ℕ) → S.left src.old ≡ Some bytes →
        SaysVerdict bytes (alone options.now) style (K.taken out.old) (K.taken out.new) }

    // With as many draws as there are pieces, and as many pivots as there are choices of the columns,
    // no budget is spent.
    ensures enough { (bytes : List ℕ) → S.left src.old ≡ Some bytes → (a : Instance) → SpellsAlone bytes a →
        AreEnough a options.now → result ≡ 8 → ⊥ }
{
    a_deck_alone_is_read_once();
    spelled_decks_keep();
    verdicts_are_those_of_the_deck();
    match read_case(alloc, src, MOST_DECK_BYTES) {
        Ok(case) => solve_case(alloc, &case, options, style, out),
        Err(refusal) => give_refusal(alloc, refusal, out),
    }
}
