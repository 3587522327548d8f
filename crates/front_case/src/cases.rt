//! The cases of problems.
ghost use Rattle.std.specs.Prelude.{◌≡◌, IfOk};
ghost use Rattle.deck_case.specs.DeckCases.{case_of_deck};
ghost use Rattle.deck_case.specs.Faults.{IsNoMemory};
ghost use Rattle.front_text.specs.Problems.{IsBilevel, IsLcp};
ghost use Rattle.kkt_front.specs.Decks.{bilevel_deck, lcp_deck};

use crate::bilevel::bilevel_as_deck;
use crate::laws::{problems_have_cases, problems_have_decks};
use crate::lcp::lcp_as_deck;
use deck_case::{CaseFault, case_of};
use kkt_front::{Bilevel, Lcp};
use lpcc_case::Case;
use std::alloc::{AllocError, Global};

// The want of memory that alone is in the way of a case.
fn memory_of(fault: CaseFault) -> AllocError
    requires { IsNoMemory fault }
{
    match fault {
        CaseFault::NoMemory(error) => error,
        CaseFault::RowWide { .. } => unreachable!(),
        CaseFault::TooMany { .. } => unreachable!(),
    }
}

/// The case of the deck of a linear complementarity problem that a text spells. Want of memory alone
/// is in its way.
pub fn lcp_case(alloc: Global, lcp: &Lcp) -> Result<Case, AllocError>
    requires { IsLcp lcp.now }
    ensures { IfOk result (λ a. a ≡ case_of_deck (lcp_deck lcp.now 0)) }
{
    problems_have_decks();
    problems_have_cases();
    let deck = lcp_as_deck(alloc, lcp)?;
    match case_of(alloc, &deck) {
        Ok(case) => Ok(case),
        Err(fault) => Err(memory_of(fault)),
    }
}

/// The case of the deck of a bilevel problem that a text spells. Want of memory alone is in its way.
pub fn bilevel_case(alloc: Global, bilevel: &Bilevel) -> Result<Case, AllocError>
    requires { IsBilevel bilevel.now }
    ensures { IfOk result (λ a. a ≡ case_of_deck (bilevel_deck bilevel.now 0 0)) }
{
    problems_have_decks();
    problems_have_cases();
    let deck = bilevel_as_deck(alloc, bilevel)?;
    match case_of(alloc, &deck) {
        Ok(case) => Ok(case),
        Err(fault) => Err(memory_of(fault)),
    }
}
