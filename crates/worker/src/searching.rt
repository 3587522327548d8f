//! A worker's search in an order of its own, in slices between which it hears of the others.
ghost use Rattle.std.specs.Prelude.{◌≡◌, IfOk, None, OnOk, length};
ghost use Rattle.cut_words.specs.Words.{item_length};
ghost use Rattle.best.specs.Passes.{IsPassOf};
ghost use Rattle.cut_pool.specs.Reaches.{HasCaughtUp};
ghost use Rattle.settling.specs.Known.{IsTrueKnowledge};
ghost use Rattle.worker.specs.Reading.{IsReading};
ghost use Rattle.worker.specs.Turns.{IsReachOf, IsReady, IsSameBut};

use crate::incumbent::exchange_best;
use crate::locked::{ready_again, share_end};
use crate::noting::Barring;
use crate::publishing::publish;
use crate::reading::read_lanes;
use best::{Best, BestPass};
use cut_pool::Reach;
use desk::Desk;
use lpcc_case::{Case, Point};
use play::{Options, Ticket};
use settling::Knowledge;
use std::alloc::{AllocError, Global};
use std::sync::{Mutex, Wait};

/// How many conflicts the search meets before the others are heard again.
const SLICE: u64 = 4;

/// Publishes what the search has found, as far as there is room. The rest waits until the reach is
/// readied.
fn publish_found(
    case: &Case,
    known: &mut Knowledge,
    reach: &mut Reach,
    words: &mut [u64],
) -> Result<(), AllocError>
    requires case { reach.old.case ≡ case.now }
    requires known { IsTrueKnowledge case.now known.old }
    requires length { length words.old ≡ item_length case.now }
    ensures known { IsTrueKnowledge case.now known.new }
    ensures same { IsSameBut reach.old reach.new }
    ensures length { length words.new ≡ length words.old }
{
    for _ in 0..reach.spare() {
        let Some(cut) = known.take_found(case)? else {
            return Ok(());
        };
        publish(case, reach, words, &cut);
    }
    Ok(())
}

/// Reads the lanes of all others with a reach that was readied. Gives a cut that bars the piece, if
/// one was read.
#[tactic(auto, using(crate::proofs::OwnLaws::nothing_read))]
pub fn hear<R: Wait>(
    rt: &R,
    alloc: Global,
    case: &Case,
    options: &Options,
    known: &mut Knowledge,
    reach: &mut Reach,
    words: &mut [u64],
    ticket: &Ticket,
) -> Result<Option<Barring>, AllocError>
    requires known { IsTrueKnowledge case.now known.old }
    requires reach { IsReachOf case.now options.now ticket.now.worker reach.old }
    requires ready { IsReady reach.old }
    requires length { length words.old ≡ item_length case.now }
    ensures known { IsTrueKnowledge case.now known.new }
    ensures reach { IsReachOf case.now options.now ticket.now.worker reach.new }
    ensures length { length words.new ≡ length words.old }
    ensures reading { IfOk result (IsReading case.now ticket.now.piece known.new.incumbent reach.new) }
    ensures read { OnOk result (HasCaughtUp reach.new) }
{
    let workers = options.workers.number();
    read_lanes(rt, alloc, case, &ticket.piece, known, reach, workers, words)
}

/// Goes on with the search for one slice, offers what it found, and readies the reach. The others
/// are told where the search has ended refuted, and it is left where another's has.
fn search_slice<R: Wait>(
    rt: &R,
    alloc: Global,
    case: &Case,
    options: &Options,
    desk: &Mutex<Desk>,
    best: &Best<Point>,
    pass: &mut BestPass<Point>,
    known: &mut Knowledge,
    reach: &mut Reach,
    words: &mut [u64],
    ticket: &Ticket,
) -> Result<(), AllocError>
    requires pass { IsPassOf best.now pass.old }
    requires known { IsTrueKnowledge case.now known.old }
    requires reach { IsReachOf case.now options.now ticket.now.worker reach.old }
    requires length { length words.old ≡ item_length case.now }
    ensures pass { IsPassOf best.now pass.new }
    ensures known { IsTrueKnowledge case.now known.new }
    ensures reach { IsReachOf case.now options.now ticket.now.worker reach.new }
    ensures length { length words.new ≡ length words.old }
    ensures ready { OnOk result (IsReady reach.new) }
{
    known.search_on(case, SLICE)?;
    exchange_best(rt, alloc, case, best, pass, known)?;
    publish_found(case, known, reach, words)?;
    let mut held = desk.lock(rt);
    share_end(&mut held, known);
    ready_again(alloc, case, options, &mut held, reach, ticket)
}

/// Searches for as long as the search goes on and no known cut bars the piece, and reads the lanes of
/// all others behind each slice. Gives a cut of another worker that bars the piece, if one was read.
#[tactic(auto, using(crate::proofs::OwnLaws::heard_none))]
pub fn search<R: Wait>(
    rt: &R,
    alloc: Global,
    case: &Case,
    options: &Options,
    desk: &Mutex<Desk>,
    best: &Best<Point>,
    pass: &mut BestPass<Point>,
    known: &mut Knowledge,
    reach: &mut Reach,
    words: &mut [u64],
    ticket: &Ticket,
) -> Result<Option<Barring>, AllocError>
    requires pass { IsPassOf best.now pass.old }
    requires known { IsTrueKnowledge case.now known.old }
    requires reach { IsReachOf case.now options.now ticket.now.worker reach.old }
    requires length { length words.old ≡ item_length case.now }
    requires reading { IsReading case.now ticket.now.piece known.old.incumbent reach.old None }
    requires read { HasCaughtUp reach.old }
    ensures pass { IsPassOf best.now pass.new }
    ensures known { IsTrueKnowledge case.now known.new }
    ensures reach { IsReachOf case.now options.now ticket.now.worker reach.new }
    ensures length { length words.new ≡ length words.old }
    ensures reading { IfOk result (IsReading case.now ticket.now.piece known.new.incumbent reach.new) }
    ensures read { OnOk result (HasCaughtUp reach.new) }
{
    for _ in 0..options.pieces / SLICE {
        if !known.is_searching(case, ticket) {
            return Ok(None);
        }
        search_slice(
            rt, alloc, case, options, desk, best, pass, known, reach, words, ticket,
        )?;
        let heard = hear(rt, alloc, case, options, known, reach, words, ticket)?;
        if heard.is_some() {
            return Ok(heard);
        }
    }
    Ok(None)
}
