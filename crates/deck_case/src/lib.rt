//! The case of a deck: the rows and the bounds of columns as constraints over whole numbers, the
//! objective as a cost that is to be least, and the pairs.
#![tactic(auto)]

ghost use Rattle.std.specs.Prelude.{◌≡◌, ◌⊎◌, IfOk, IfErr, IsErr};
ghost use Rattle.deck_case.specs.declared.fault.CaseFault.{CaseFault as Fault};
ghost use Rattle.deck_case.specs.DeckCases.{HasCase};
ghost use Rattle.deck_case.specs.Faults.{HasCaseFault, IsFaultOf, IsNoMemory};
ghost use Rattle.lpcc_case.specs.Instance.{Instance};
ghost use Rattle.decks.specs.Decks.{IsDeck};

mod body;
mod columns;
mod entries;
mod fault;
mod laws;
mod numbers;
mod objective;
mod pairs;
mod relations;
mod rows;
mod signs;

use body::Body;
use decks::Deck;
pub use fault::CaseFault;
pub use laws::{
    a_decks_case_keeps_the_limits, case_exactly_without_a_fault, case_is_determined,
    cost_is_the_objective, fault_is_determined, feasible_exactly_where_the_deck_is_met,
    multiplier_is_the_least_that_clears, relaxed_verdicts_are_those_of_the_relaxed_deck,
    value_is_the_objective_with_its_constant, verdicts_are_those_of_the_deck,
};
use lp_base::{MOST_CONSTRAINTS, Sequence};
use lpcc_case::Case;
use std::alloc::Global;

/// The case of a deck: each row times the least number that makes it whole, in file order, then
/// the bounds of each column, and each pair as the pair of the constraints that are tight where
/// its quantities are zero: the pairs of PAIRS, and then each two items of each group. The cost is
/// the objective, with all signs changed where it is to be greatest.
///
/// `RowWide` comes exactly where one of its whole numbers, or a multiplier, is past 2^52 in size,
/// and names the first row or bound with such a number. `TooMany` comes exactly where, without
/// that, there are more than 2,000 constraints, and names the line of ENDATA. `NoMemory` comes for
/// want of memory alone.
pub fn case_of(alloc: Global, deck: &Deck) -> Result<Case, CaseFault>
    requires { IsDeck deck.now }
    ensures exact { IfOk result (HasCase deck.now) }
    ensures fault { IfErr result (IsFaultOf deck.now) }

    // The other way round, as far as memory allows.
    ensures found { (a : Instance) → HasCase deck.now a → IfErr result IsNoMemory }
    ensures refused { (f : Fault) → HasCaseFault deck.now f → IsErr result }
    ensures named { (f : Fault) → HasCaseFault deck.now f →
        IfErr result (λ g. IsNoMemory g ⊎ (g ≡ f)) }
{
    let entries = entries::entries_by_row(alloc, deck.rows.len(), deck.entries.as_slice())?;
    let mut body = Body::of_deck(alloc, deck, entries.as_slice())?;
    let columns = columns::push_columns(alloc, deck.columns.as_slice(), &mut body.constraints)?;
    if body.constraints.len() > MOST_CONSTRAINTS {
        return Err(CaseFault::TooMany {
            line: deck.end_line,
        });
    }
    let pairs = pairs::numbers(alloc, deck, body.firsts.as_slice(), columns.as_slice())?;
    Ok(Case::of_parts(
        deck.columns.len() as u32,
        body.objective.cost,
        body.objective.scale,
        body.objective.offset,
        deck.sense,
        Sequence::of_vec(body.constraints),
        pairs,
    ))
}
