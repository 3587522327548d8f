//! A case that is edited three times and answered after each edit.
ghost use Rattle.std.specs.Prelude.{◌<◌, ◌-◌, ◌^◌, length};

use case_edits::{Edit, EditFault};
use cert_text::Cert;
use deck_case::case_of;
use edit_session::Session;
use lp_base::Sequence;
use lpcc_case::{Case, Constraint, Kind};
use mps_pairs::read_deck;
use play::{Ending, Options, ShrinkMode, Workers};
use std::alloc::Global;
use std::rt::HostRuntime;
use std::test::Fail;

/// Two columns of at most 3 and 2 with the costs -1 and -2, and a pair of both.
const DECK: &str =
    "ROWS\n N cost\nCOLUMNS\n x cost -1\n y cost -2\nBOUNDS\n UP bnd x 3\n UP bnd y 2\nPAIRS\n p1 COL x COL y\nENDATA\n";

/// The bytes of a text that is short enough for the readers.
fn short_bytes(text: &str) -> &[u8]
    ensures { length result.now < 2 ^ 32 - 1 }
{
    let bytes = text.as_bytes();
    if bytes.len() < 4096 { bytes } else { &[] }
}

fn deck_case(alloc: Global) -> Result<Case, Fail> {
    let (deck, _) = read_deck(alloc, short_bytes(DECK))?;
    Ok(case_of(alloc, &deck)?)
}

fn opened(alloc: Global) -> Result<Session, Fail> {
    let options = Options {
        workers: Workers::one(),
        pieces: 1_000_000,
        pivots: 1_000_000,
        shrink: ShrinkMode::Full,
    };
    Ok(Session::create(alloc, deck_case(alloc)?, options))
}

/// Whether the ending has an optimum of this number over the denominator 1, with so many draws.
fn is_optimum(ending: &Ending, value: i128, draws: u64) -> bool {
    match ending {
        Ending::Verdict {
            cert: Cert::Optimal { point, z, .. },
            drawn,
        } => *z == value && point.d == 1 && *drawn == draws,
        _ => false,
    }
}

/// Answers, and expects this optimum.
fn expect(alloc: Global, session: &mut Session, value: i128, draws: u64) -> Result<(), Fail> {
    let ending = session.answer(alloc)?;
    if is_optimum(&ending, value, draws) {
        Ok(())
    } else {
        Err("another answer")?
    }
}

/// Both columns together are at most 3.
fn add(alloc: Global, session: &mut Session) -> Result<(), Fail> {
    let terms = Vec::from_slice(alloc, &[(0, -1), (1, -1)])?;
    let constraint = Constraint {
        kind: Kind::Ge,
        terms: Sequence::of_vec(terms),
        rhs: -3,
    };
    Ok(session.edit(alloc, Edit::Add(constraint))?)
}

/// The costs are -1 and -5.
fn change_cost(alloc: Global, session: &mut Session) -> Result<(), Fail> {
    let cost = Vec::from_slice(alloc, &[-1, -5])?;
    Ok(session.edit(alloc, Edit::Cost(Sequence::of_vec(cost)))?)
}

fn edit_and_answer(alloc: Global, session: &mut Session) -> Result<(), Fail> {
    expect(alloc, session, -4, 2)?;
    add(alloc, session)?;
    expect(alloc, session, -4, 1)?;
    session.edit(alloc, Edit::Tighten { con: 3, rhs: -1 })?;
    expect(alloc, session, -3, 2)?;
    change_cost(alloc, session)?;
    expect(alloc, session, -5, 2)
}

#[test]
fn edits_and_answers(rt: HostRuntime) -> Result<(), Fail> {
    let alloc = rt.alloc();
    let mut session = opened(alloc)?;
    edit_and_answer(alloc, &mut session)
}

/// Whether the edit is refused for this reason.
fn refuses(alloc: Global, session: &mut Session, edit: Edit, why: EditFault) -> bool {
    match session.edit(alloc, edit) {
        Err(fault) => fault == why,
        Ok(()) => false,
    }
}

#[test]
fn refused_edits(rt: HostRuntime) -> Result<(), Fail> {
    let alloc = rt.alloc();
    let mut session = opened(alloc)?;
    let loosens = Edit::Tighten { con: 3, rhs: -3 };
    let is_refused = refuses(alloc, &mut session, loosens, EditFault::Loosens)
        && refuses(
            alloc,
            &mut session,
            Edit::Tighten { con: 8, rhs: 0 },
            EditFault::NoSuch,
        );
    if is_refused {
        Ok(())
    } else {
        Err("an edit is refused")?
    }
}
