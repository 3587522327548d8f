//! The commands over a source and a sink.
ghost use Rattle.std.specs.Prelude.{◌≡◌, ◌⊎◌, ℕ, List, Err, Ok, Some};
ghost use Rattle.engine.specs.Solved.{alone};
ghost use Rattle.front_text.specs.Problems.{IsBilevel, IsLcp};
ghost use Rattle.fronting.specs.Runs.{IsBilevelRun, IsLcpRun, IsWrittenFor};
ghost use Rattle.fronting.specs.declared.refusal.FrontRefusal.TheVariants as refusal;
ghost use Rattle.front_solving.specs.Solving.{IsBilevelAnswered, IsLcpAnswered, SaysOfBilevel, SaysOfLcp, bilevel_case, lcp_case};

use crate::endings::{bilevel_text, lcp_text};
use command::{Status, give, give_no_memory};
use deck_case::cost_is_the_objective;
use engine::solve_alone;
use front_case::{bilevel_case, lcp_case, problems_have_decks};
use fronting::{give_front_refusal, read_bilevel_from, read_lcp_from};
use kkt_front::{
    Bilevel, Lcp, a_deck_is_met_by_the_solutions, a_deck_is_met_with_multipliers,
    y_with_multipliers_is_least,
};
use lp_io::{Sink, Source};
use lpcc_case::Case;
use play::Options;
use report::status_of;
use std::alloc::Global;

// Solves the case of the problem with one worker, and writes how that ends.
fn give_lcp_ending<K: Sink>(
    alloc: Global,
    case: &Case,
    lcp: &Lcp,
    options: &Options,
    out: &mut K,
) -> Status
    requires { case.now ≡ lcp_case lcp.now }
    ensures { IsWrittenFor (SaysOfLcp (alone options.now)) (Ok lcp.now) (K.taken out.old) (K.taken out.new) (K.faults out.old) (K.faults out.new) result
        ⊎ IsWrittenFor (SaysOfLcp (alone options.now)) (Err refusal.NoMemory) (K.taken out.old) (K.taken out.new) (K.faults out.old) (K.faults out.new) result }
{
    let ending = solve_alone(alloc, case, options);
    match lcp_text(alloc, case, lcp.size, &ending) {
        Ok(text) => give(text.as_slice(), status_of(&ending), out),
        Err(_) => give_no_memory(out),
    }
}

// Solves the problem with one worker, and writes how that ends.
fn give_lcp_solution<K: Sink>(alloc: Global, lcp: &Lcp, options: &Options, out: &mut K) -> Status
    requires { IsLcp lcp.now }
    ensures { IsWrittenFor (SaysOfLcp (alone options.now)) (Ok lcp.now) (K.taken out.old) (K.taken out.new) (K.faults out.old) (K.faults out.new) result
        ⊎ IsWrittenFor (SaysOfLcp (alone options.now)) (Err refusal.NoMemory) (K.taken out.old) (K.taken out.new) (K.faults out.old) (K.faults out.new) result }
{
    match lcp_case(alloc, lcp) {
        Ok(case) => give_lcp_ending(alloc, &case, lcp, options, out),
        Err(_) => give_no_memory(out),
    }
}

// Solves the case of the problem with one worker, and writes how that ends.
fn give_bilevel_ending<K: Sink>(
    alloc: Global,
    case: &Case,
    bilevel: &Bilevel,
    options: &Options,
    out: &mut K,
) -> Status
    requires rules { IsBilevel bilevel.now }
    requires made { case.now ≡ bilevel_case bilevel.now }
    ensures { IsWrittenFor (SaysOfBilevel (alone options.now)) (Ok bilevel.now) (K.taken out.old) (K.taken out.new) (K.faults out.old) (K.faults out.new) result
        ⊎ IsWrittenFor (SaysOfBilevel (alone options.now)) (Err refusal.NoMemory) (K.taken out.old) (K.taken out.new) (K.faults out.old) (K.faults out.new) result }
{
    let ending = solve_alone(alloc, case, options);
    match bilevel_text(alloc, case, bilevel.nx + bilevel.ny, &ending) {
        Ok(text) => give(text.as_slice(), status_of(&ending), out),
        Err(_) => give_no_memory(out),
    }
}

// Solves the problem with one worker, and writes how that ends.
fn give_bilevel_solution<K: Sink>(
    alloc: Global,
    bilevel: &Bilevel,
    options: &Options,
    out: &mut K,
) -> Status
    requires { IsBilevel bilevel.now }
    ensures { IsWrittenFor (SaysOfBilevel (alone options.now)) (Ok bilevel.now) (K.taken out.old) (K.taken out.new) (K.faults out.old) (K.faults out.new) result
        ⊎ IsWrittenFor (SaysOfBilevel (alone options.now)) (Err refusal.NoMemory) (K.taken out.old) (K.taken out.new) (K.faults out.old) (K.faults out.new) result }
{
    match bilevel_case(alloc, bilevel) {
        Ok(case) => give_bilevel_ending(alloc, &case, bilevel, options, out),
        Err(_) => give_no_memory(out),
    }
}

/// Reads the text of a linear complementarity problem, solves its deck with one worker, and writes a
/// solution, or that there is none, or why neither is known; answers the status that a program ends
/// with. It takes no handle, and always returns.
pub fn solve_lcp<S: Source, K: Sink>(
    alloc: Global,
    options: &Options,
    src: &mut S,
    out: &mut K,
) -> Status
    // The text is refused exactly for its cause, or a record of a run over the case of its deck has
    // this ending; that is written.
    ensures answered { IsLcpRun (SaysOfLcp (alone options.now)) (S.left src.old) (S.faults src.old) (S.faults src.new)
        (K.taken out.old) (K.taken out.new) (K.faults out.old) (K.faults out.new) result }

    // With status 0 a solution was written, or that there is none, and it is so.
    ensures solved { result ≡ 0 → (bytes : List ℕ) → S.left src.old ≡ Some bytes →
        IsLcpAnswered bytes (K.taken out.old) (K.taken out.new) }
{
    cost_is_the_objective();
    a_deck_is_met_by_the_solutions();
    problems_have_decks();
    match read_lcp_from(alloc, src) {
        Ok(lcp) => give_lcp_solution(alloc, &lcp, options, out),
        Err(refusal) => give_front_refusal(alloc, refusal, out),
    }
}

/// Reads the text of a bilevel problem, solves its deck with one worker, and writes the verdict, of an
/// optimum with the values of the variables, or why there is none; answers the status that a program
/// ends with. It takes no handle, and always returns.
pub fn solve_bilevel<S: Source, K: Sink>(
    alloc: Global,
    options: &Options,
    src: &mut S,
    out: &mut K,
) -> Status
    // The text is refused exactly for its cause, or a record of a run over the case of its deck has
    // this ending; that is written.
    ensures answered { IsBilevelRun (SaysOfBilevel (alone options.now)) (S.left src.old) (S.faults src.old) (S.faults src.new)
        (K.taken out.old) (K.taken out.new) (K.faults out.old) (K.faults out.new) result }

    // With status 0 the verdict is true of the points that have multipliers, and of an optimum such a
    // point was written.
    ensures solved { result ≡ 0 → (bytes : List ℕ) → S.left src.old ≡ Some bytes →
        IsBilevelAnswered bytes (K.taken out.old) (K.taken out.new) }
{
    cost_is_the_objective();
    a_deck_is_met_with_multipliers();
    y_with_multipliers_is_least();
    problems_have_decks();
    match read_bilevel_from(alloc, src) {
        Ok(bilevel) => give_bilevel_solution(alloc, &bilevel, options, out),
        Err(refusal) => give_front_refusal(alloc, refusal, out),
    }
}
