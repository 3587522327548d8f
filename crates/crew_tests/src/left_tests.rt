//! A desk that a worker has left with its ticket, while another still holds one.
ghost use Rattle.std.specs.Prelude.{◌≡◌, ◌≢◌, ◌<◌, ◌+◌, IfOk, IsTrue, None, length};
ghost use Rattle.cut_words.specs.Words.{item_length};
ghost use Rattle.cut_pool.specs.Reaches.{SameButLane};
ghost use Rattle.crew.specs.Crews.{AreReachesOf};
ghost use Rattle.desk.specs.Settling.{HasReadAll};
ghost use Rattle.worker.specs.Reading.{AreDry, IsReading};
ghost use Rattle.worker.specs.Turns.{IsOwn, MaySettleBy};

use crate::runs::{case_in, options_for};
use cut_pool::Reach;
use cut_words::item_length;
use desk::{Desk, Draw};
use lpcc_case::Case;
use nogoods::{Piece, Side};
use play::{Options, Outcome, Ticket};
use settling::{Knowledge, outcome_of};
use std::alloc::{AllocError, Global};
use std::test::Fail;

/// Two columns of at most 3 and 2 with the costs -1 and -2, and a pair of both.
const DECK: &str =
    "ROWS\n N cost\nCOLUMNS\n x cost -1\n y cost -2\nBOUNDS\n UP bnd x 3\n UP bnd y 2\nPAIRS\n p1 COL x COL y\nENDATA\n";

/// The desk, and a reach for each worker.
#[tactic(auto, using(crew::proofs::CrewLaws::reaches_of))]
fn opened(alloc: Global, case: &Case, options: &Options) -> Result<(Desk, Vec<Reach>), AllocError>
    ensures reaches { IfOk result (λ made. AreReachesOf case.now made.1.items) }
{
    let _workers = options.workers.number();
    let (desk, reaches) = Desk::create(alloc, case, options)?;
    Ok((desk, reaches))
}

/// The first reach, which is taken out.
#[tactic(auto, using(crew::proofs::CrewLaws::all_removed, crew::proofs::CrewLaws::first_all))]
fn next_reach(case: &Case, reaches: &mut Vec<Reach>) -> Result<Reach, Fail>
    requires reaches { AreReachesOf case.now reaches.old.items }
    ensures others { AreReachesOf case.now reaches.new.items }
    ensures first { IfOk result (λ r. r.case ≡ case.now) }
{
    if reaches.is_empty() {
        Err("there is a reach")?;
    }
    Ok(reaches.remove(0))
}

/// Readies a worker that holds no ticket, and draws for it.
fn draw(alloc: Global, desk: &mut Desk, worker: u32, reach: &mut Reach) -> Result<Draw, Fail>
    ensures { reach.new.case ≡ reach.old.case }
{
    if !desk.fits(worker, reach, None) {
        Err("the desk knows the worker")?;
    }
    desk.ready(alloc, worker, reach)?;
    Ok(desk.draw(alloc, worker)?)
}

/// The ticket of a draw that gave a piece.
fn ticket_of(drawn: Draw) -> Result<Ticket, Fail> {
    match drawn {
        Draw::Piece(ticket) => Ok(ticket),
        _ => Err("a piece was drawn")?,
    }
}

fn is_left(drawn: &Draw) -> bool {
    matches!(drawn, Draw::Left)
}

/// Looks once at the lane of another worker. True where it had nothing.
fn is_dry(case: &Case, piece: &Piece, reach: &mut Reach, lane: u32, words: &mut [u64]) -> bool
    requires other { lane ≢ reach.old.worker }
    requires lane { lane < length reach.old.lanes }
    requires length { length words.old ≡ item_length case.now }
    requires reading { IsReading case.now piece.now None reach.old None }
    requires dry { AreDry reach.old lane }
    ensures same { SameButLane reach.old reach.new lane }
    ensures length { length words.new ≡ length words.old }
    ensures reading { IsTrue result → IsReading case.now piece.now None reach.new None }
    ensures dry { IsTrue result → AreDry reach.new (lane + 1) }
{
    if reach.next(lane, words) {
        return false;
    }
    true
}

/// Whether the lanes of the first and the third of three workers have nothing for the second, whose
/// reach was just readied.
#[tactic(auto, using(crate::proofs::LeftLaws::own_is_passed, crate::proofs::LeftLaws::all_read))]
fn are_others_dry(
    alloc: Global,
    case: &Case,
    piece: &Piece,
    reach: &mut Reach,
) -> Result<bool, Fail>
    requires case { reach.old.case ≡ case.now }
    requires second { reach.old.worker ≡ 1 }
    requires three { length reach.old.lanes ≡ 3 }
    requires reading { IsReading case.now piece.now None reach.old None }
    ensures { IfOk result (λ dry. IsTrue dry → HasReadAll reach.new piece.now) }
{
    let mut words = vec![in alloc; 0u64; item_length(case) as usize]?;
    if !is_dry(case, piece, reach, 0, &mut words) {
        return Ok(false);
    }
    Ok(is_dry(case, piece, reach, 2, &mut words))
}

/// Readies the second of three workers, which holds a ticket. Whether its reach has then caught up,
/// with nothing read.
#[tactic(auto, using(crate::proofs::LeftLaws::just_readied))]
fn has_caught_up(
    alloc: Global,
    case: &Case,
    options: &Options,
    desk: &mut Desk,
    reach: &mut Reach,
    ticket: &Ticket,
) -> Result<bool, Fail>
    requires case { reach.old.case ≡ case.now }
    ensures { IfOk result (λ caught_up. IsTrue caught_up → HasReadAll reach.new ticket.now.piece) }
{
    if !desk.is_for(case, options) || !desk.fits(1, reach, Some(ticket)) || reach.lanes() != 3 {
        return Ok(false);
    }
    desk.ready(alloc, 1, reach)?;
    are_others_dry(alloc, case, &ticket.piece, reach)
}

fn is_cut(outcome: &Outcome) -> bool
    ensures { IsTrue result → IsOwn outcome.now }
{
    matches!(outcome, Outcome::Cut { .. })
}

/// The cut of a solve of the piece of a ticket.
#[tactic(auto, using(worker::proofs::OwnLaws::own_settles))]
fn solved(
    alloc: Global,
    case: &Case,
    options: &Options,
    reach: &Reach,
    ticket: &Ticket,
) -> Result<Outcome, Fail>
    requires read { HasReadAll reach.now ticket.now.piece }
    ensures { IfOk result (MaySettleBy case.now options.now ticket.now reach.now) }
{
    if ticket.piece.sides().len() != case.pairs().len() {
        Err("the ticket is for a piece")?;
    }
    let mut known = Knowledge::new(alloc, 0);
    let outcome = outcome_of(alloc, case, options, &mut known, ticket)?;
    if !is_cut(&outcome) {
        Err("the piece has a cut")?;
    }
    Ok(outcome)
}

/// Whether the desk takes a settlement.
fn settles(
    alloc: Global,
    case: &Case,
    options: &Options,
    desk: &mut Desk,
    reach: &Reach,
    ticket: Ticket,
    outcome: Outcome,
) -> bool
    requires { MaySettleBy case.now options.now ticket reach.now outcome }
{
    if !desk.is_for(case, options) || !desk.fits(ticket.worker, reach, Some(&ticket)) {
        return false;
    }
    desk.settle(alloc, reach, ticket, outcome).is_ok()
}

/// Solves and settles the ticket of the second of three workers.
fn settle_second(
    alloc: Global,
    case: &Case,
    options: &Options,
    desk: &mut Desk,
    reach: &mut Reach,
    ticket: Ticket,
) -> Result<bool, Fail>
    requires case { reach.old.case ≡ case.now }
{
    if !has_caught_up(alloc, case, options, desk, reach, &ticket)? {
        return Ok(false);
    }
    let outcome = solved(alloc, case, options, reach, &ticket)?;
    Ok(settles(alloc, case, options, desk, reach, ticket, outcome))
}

/// The first of three workers leaves the desk with its ticket: nothing is drawn any more, and what
/// the second has drawn is settled all the same.
#[test]
fn a_left_desk_takes_a_settlement(rt: HostRuntime) -> Result<(), Fail> {
    let alloc = rt.alloc();
    let case = case_in(alloc, DECK)?;
    let options = options_for(3)?;
    let (mut desk, mut reaches) = opened(alloc, &case, &options)?;
    let mut first = next_reach(&case, &mut reaches)?;
    let mut second = next_reach(&case, &mut reaches)?;
    let mut third = next_reach(&case, &mut reaches)?;
    let left = ticket_of(draw(alloc, &mut desk, 0, &mut first)?)?;
    let held = ticket_of(draw(alloc, &mut desk, 1, &mut second)?)?;
    assert_eq!(rt; left.piece.sides(), [Side::A].as_slice());
    assert_eq!(rt; held.piece.sides(), [Side::B].as_slice());
    desk.abandon(Some(left));
    assert!(rt; is_left(&draw(alloc, &mut desk, 2, &mut third)?));
    assert!(rt; settle_second(alloc, &case, &options, &mut desk, &mut second, held)?);
    assert!(rt; is_left(&draw(alloc, &mut desk, 1, &mut second)?));
    Ok(())
}
