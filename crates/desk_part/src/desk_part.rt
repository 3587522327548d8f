//! The desk part of a run: what a verdict rests on. The shelf of the workers lies round it.
ghost use Rattle.std.specs.Prelude.{◌≡◌, ◌≢◌, ◌<◌, ◌≤◌, true, false, ◌∷◌, [], ℕ, List, All, Contains, IfOk, IfErr, IfSome, pos, ◌≤ℤ◌, IsTrue, None, OnOk, OnErr, Some, length};
ghost use Rattle.nogoods.specs.Pieces.{Bars};
ghost use Rattle.cuts.specs.Cuts.{no_good_of};
ghost use Rattle.derivation.specs.Logs.{no_goods};
ghost use Rattle.search.specs.FirstPieces.{AllBlocked, IsFirst};
ghost use Rattle.play.specs.Parts.{barring, flight_of, start, taken};
ghost use Rattle.play.specs.Steps.{set_aside, take_cut, take_outcome};
ghost use Rattle.play.specs.Lawful.{IsFree, MayConclude};
ghost use Rattle.desk_part.specs.DeskParts.{Draws, CutBars, IsBack, IsCarried, IsSettled, Learns, MayBeSettled, Settles, Shows, best_in, is_unbounded, outcome_of};
ghost use Rattle.desk_part.specs.declared.answer.Draw.TheVariants as draw;

use crate::Draw;
use crate::look::{KeptSearch, look};
use crate::settle::{absorb, fly, land};
use cuts::Cut;
use derivation::Log;
use lpcc_case::{Case, Point};
use nogoods::Piece;
use play::{Aside, Cause, Direction, Ending, Options, Outcome, Ticket, VerdictKind, lowered};
use search::{Found, PieceSet};
use std::alloc::{AllocError, Global};
use std::marker::Model;

/// The absorbed cuts with their log, the pieces in flight and those set aside, the number of
/// draws, the best point, a kept unbounded outcome and the verdict. Contracts see these parts.
#[derive(Drop)]
pub struct DeskPart {
    pub(crate) absorbed: Vec<Cut>,
    pub(crate) log: Log,
    pub(crate) flight: Vec<Ticket>,
    pub(crate) aside: Vec<Aside>,
    pub(crate) drawn: u64,
    pub(crate) best: Option<Point>,
    pub(crate) unbounded: Option<Direction>,
    pub(crate) verdict: Option<VerdictKind>,
    /// The pieces in flight and those set aside, as a search takes them.
    blocked: PieceSet,
    /// The search that goes on.
    kept: Option<KeptSearch>,
}

impl Model for DeskPart {
    ghost use Rattle.play.specs.Parts.{Part};

    ghost Value = { Part };

    ghost use Rattle.desk_part.specs.Searches.{IsSearched, part_of};

    ghost view = { λ d. part_of d.absorbed.items d.log d.flight.items d.aside.items d.drawn d.best d.unbounded d.verdict };

    ghost invariant = { λ d. IsSearched (part_of d.absorbed.items d.log d.flight.items d.aside.items d.drawn d.best d.unbounded d.verdict) d.blocked d.kept };
}

impl DeskPart {
    /// Nothing has happened. It takes no memory.
    pub fn create(alloc: Global) -> DeskPart
        ensures { result ≡ start }
    {
        DeskPart {
            absorbed: Vec::new(alloc),
            log: Log::create(alloc),
            flight: Vec::new(alloc),
            aside: Vec::new(alloc),
            drawn: 0,
            best: None,
            unbounded: None,
            verdict: None,
            blocked: PieceSet::create(alloc),
            kept: None,
        }
    }

    /// What a search finds. It may learn steps, also where memory is short.
    pub(crate) fn search(
        &mut self,
        alloc: Global,
        case: &Case,
        options: &Options,
    ) -> Result<Found, AllocError>
        requires carried { IsCarried case.now options.now self.old }
        requires waiting { self.old.verdict ≡ None }
        requires settled { self.old.unbounded ≡ None }
        ensures shows { IfOk result (Shows case.now self.new) }
        ensures learns { Learns case.now options.now self.old self.new }
    {
        let pairs = case.pairs().len() as u32;
        let found = look(alloc, &mut self.log, pairs, &self.blocked, &mut self.kept);
        let _ = self.log.steps();
        found
    }

    /// Hands out the piece, unless all draws were made.
    fn give(
        &mut self,
        alloc: Global,
        case: &Case,
        options: &Options,
        worker: u32,
        piece: Piece,
    ) -> Result<Draw, AllocError>
        requires carried { IsCarried case.now options.now self.old }
        requires waiting { self.old.verdict ≡ None }
        requires settled { self.old.unbounded ≡ None }
        requires known { worker < options.now.workers }
        requires free { IsFree worker self.old.flight }
        requires first { IsFirst (length case.now.pairs) (barring self.old) (taken self.old) piece }
        ensures ok { IfOk result (Draws case.now options.now worker self.old self.new) }
        ensures err { OnErr result (self.new ≡ self.old) }
    {
        if self.drawn >= options.pieces {
            return Ok(self.spend(case, options, worker, &piece));
        }
        let number = self.drawn;
        let ticket = Ticket {
            worker,
            number,
            piece: piece.copy(alloc)?,
        };
        fly(alloc, &mut self.flight, &mut self.blocked, ticket)?;
        self.drawn = number + 1;
        Ok(Draw::Piece(Ticket {
            worker,
            number,
            piece,
        }))
    }

    fn is_idle(&self) -> bool
        ensures idle { result ≡ true → self.now.flight ≡ [] }
        ensures flying { result ≡ false → self.now.flight ≢ [] }
    {
        self.flight.is_empty()
    }

    /// The tickets in flight.
    pub fn flight(&self) -> &[Ticket]
        ensures { result.now ≡ self.now.flight }
    {
        self.flight.as_slice()
    }

    /// Whether there is a verdict.
    pub fn has_verdict(&self) -> bool
        ensures some { result ≡ true → self.now.verdict ≢ None }
        ensures none { result ≡ false → self.now.verdict ≡ None }
    {
        self.verdict.is_some()
    }

    /// All draws were made, and this piece is left.
    fn spend(&self, case: &Case, options: &Options, worker: u32, left: &Piece) -> Draw
        requires carried { IsCarried case.now options.now self.now }
        requires waiting { self.now.verdict ≡ None }
        requires spent { options.now.pieces ≤ self.now.drawn }
        requires first { IsFirst (length case.now.pairs) (barring self.now) (taken self.now) left.now }
        ensures { Draws case.now options.now worker self.now self.now result }
    {
        if self.is_idle() {
            Draw::Done
        } else {
            Draw::Pause
        }
    }

    fn kind(&self) -> VerdictKind
        requires { Contains (no_goods self.now.log) [] }
        ensures { MayConclude self.now result }
    {
        match &self.best {
            Some(_) => VerdictKind::Optimal,
            None => VerdictKind::Infeasible,
        }
    }

    /// Every piece is barred: there is a verdict, unless something is in flight.
    fn conclude(&mut self, case: &Case, options: &Options, worker: u32) -> Draw
        requires carried { IsCarried case.now options.now self.old }
        requires waiting { self.old.verdict ≡ None }
        requires empty { Contains (no_goods self.old.log) [] }
        ensures { Draws case.now options.now worker self.old self.new result }
    {
        if self.is_idle() {
            self.verdict = Some(self.kind());
            Draw::Done
        } else {
            Draw::Pause
        }
    }

    /// Each piece that is not barred is in flight or set aside.
    fn stay(&self, case: &Case, options: &Options, worker: u32) -> Draw
        requires waiting { self.now.verdict ≡ None }
        requires blocked { AllBlocked (length case.now.pairs) (barring self.now) (taken self.now) }
        ensures { Draws case.now options.now worker self.now self.now result }
    {
        if self.is_idle() {
            Draw::Done
        } else {
            Draw::Pause
        }
    }

    /// What follows from what a search found.
    fn answer(
        &mut self,
        alloc: Global,
        case: &Case,
        options: &Options,
        worker: u32,
        found: Found,
    ) -> Result<Draw, AllocError>
        requires carried { IsCarried case.now options.now self.old }
        requires waiting { self.old.verdict ≡ None }
        requires settled { self.old.unbounded ≡ None }
        requires known { worker < options.now.workers }
        requires free { IsFree worker self.old.flight }
        requires shows { Shows case.now self.old found }
        ensures ok { IfOk result (Draws case.now options.now worker self.old self.new) }
        ensures err { OnErr result (self.new ≡ self.old) }
    {
        match found {
            Found::Piece(piece) => self.give(alloc, case, options, worker, piece),
            Found::Refuted => Ok(self.conclude(case, options, worker)),
            Found::Blocked => Ok(self.stay(case, options, worker)),
        }
    }

    /// Gives the worker the first piece that no absorbed cut bars and that is neither in flight
    /// nor set aside. It concludes where there is none, because all are barred.
    pub fn draw(
        &mut self,
        alloc: Global,
        case: &Case,
        options: &Options,
        worker: u32,
    ) -> Result<Draw, AllocError>
        requires carried { IsCarried case.now options.now self.old }
        requires settled { IsSettled self.old }
        requires known { worker < options.now.workers }
        requires free { IsFree worker self.old.flight }
        ensures ok { IfOk result (Draws case.now options.now worker self.old self.new) }
        ensures err { OnErr result (Learns case.now options.now self.old self.new) }
    {
        if self.has_verdict() {
            return Ok(Draw::Done);
        }
        let found = self.search(alloc, case, options)?;
        self.answer(alloc, case, options, worker, found)
    }

    /// Lowers the best point where the offer is lower, and absorbs the cut, which bars the piece.
    fn take_cut(
        &mut self,
        alloc: Global,
        piece: &Piece,
        cut: Cut,
        best: Option<Point>,
    ) -> Result<(), (Cut, Option<Point>)>
        requires bars { Bars (no_good_of cut) piece.now }
        requires old { IfSome self.old.best (λ q. pos 1 ≤ℤ q.d) }
        requires offer { IfSome best (λ q. pos 1 ≤ℤ q.d) }
        ensures ok { OnOk result (self.new ≡ take_cut cut best self.old) }
        ensures err { OnErr result (self.new ≡ self.old) }
        ensures back { IfErr result (λ b. (b.0 ≡ cut) × (b.1 ≡ best)) }
    {
        if let Err(cut) = absorb(alloc, &mut self.absorbed, &mut self.log, cut) {
            return Err((cut, best));
        }
        self.best = lowered(self.best.take(), best);
        self.blocked.remove(piece.sides());
        Ok(())
    }

    /// Sets the piece of the ticket aside.
    fn set_aside(&mut self, ticket: Ticket, cause: Cause) -> Result<(), (Ticket, Cause)>
        requires { flight_of ticket.number self.old.flight ≡ Some ticket }
        ensures ok { OnOk result (self.new ≡ set_aside ticket cause self.old) }
        ensures err { OnErr result (self.new ≡ self.old) }
        ensures back { IfErr result (λ b. (b.0 ≡ ticket) × (b.1 ≡ cause)) }
    {
        let aside = Aside {
            ticket: ticket.number,
            piece: ticket.piece,
            cause,
        };
        match self.aside.push(aside) {
            Ok(()) => Ok(()),
            Err(failed) => Err((
                Ticket {
                    worker: ticket.worker,
                    number: ticket.number,
                    piece: failed.value.piece,
                },
                failed.value.cause,
            )),
        }
    }

    /// What an outcome changes on a part without a verdict.
    fn take_outcome(
        &mut self,
        alloc: Global,
        ticket: Ticket,
        outcome: Outcome,
    ) -> Result<(), (Ticket, Outcome)>
        requires flying { flight_of ticket.number self.old.flight ≡ Some ticket }
        requires bars { CutBars ticket outcome }
        requires old { IfSome self.old.best (λ q. pos 1 ≤ℤ q.d) }
        requires offer { IfSome (best_in outcome) (λ q. pos 1 ≤ℤ q.d) }
        ensures ok { OnOk result (self.new ≡ take_outcome ticket outcome self.old) }
        ensures err { OnErr result (self.new ≡ self.old) }
        ensures back { IfErr result (IsBack ticket outcome) }
    {
        match outcome {
            Outcome::Cut { cut, kept, best } => match self.take_cut(
                alloc,
                &ticket.piece,
                cut,
                best,
            ) {
                Ok(()) => Ok(()),
                Err(back) => Err((
                    ticket,
                    Outcome::Cut {
                        cut: back.0,
                        kept,
                        best: back.1,
                    },
                )),
            },
            Outcome::Barred {
                lane,
                place,
                cut,
                best,
            } => match self.take_cut(alloc, &ticket.piece, cut, best) {
                Ok(()) => Ok(()),
                Err(back) => Err((
                    ticket,
                    Outcome::Barred {
                        lane,
                        place,
                        cut: back.0,
                        best: back.1,
                    },
                )),
            },
            Outcome::Unbounded { point, ray } => {
                self.unbounded = Some(Direction {
                    piece: ticket.piece,
                    point,
                    ray,
                });
                Ok(())
            }
            Outcome::Wide(at) => match self.set_aside(ticket, Cause::Wide(at)) {
                Ok(()) => Ok(()),
                Err(back) => Err((back.0, outcome_of(back.1))),
            },
            Outcome::Spent(at) => match self.set_aside(ticket, Cause::Spent(at)) {
                Ok(()) => Ok(()),
                Err(back) => Err((back.0, outcome_of(back.1))),
            },
        }
    }

    /// Settles a piece in flight. Behind a verdict it only takes the ticket back. Without memory
    /// it hands both back, and nothing changes.
    pub fn settle(
        &mut self,
        alloc: Global,
        case: &Case,
        options: &Options,
        ticket: Ticket,
        outcome: Outcome,
    ) -> Result<(), (Ticket, Outcome)>
        requires carried { IsCarried case.now options.now self.old }
        requires settled { IsSettled self.old }
        requires may { MayBeSettled case.now options.now self.old ticket outcome }
        ensures ok { OnOk result (Settles case.now options.now self.old ticket outcome self.new) }
        ensures settled { IsSettled self.new }
        ensures err { OnErr result (self.new ≡ self.old) }
        ensures back { IfErr result (IsBack ticket outcome) }
    {
        let number = ticket.number;
        if self.has_verdict() {
            land(&mut self.flight, number);
            return Ok(());
        }
        let ends = is_unbounded(&outcome);
        if let Err(back) = self.take_outcome(alloc, ticket, outcome) {
            return Err(back);
        }
        land(&mut self.flight, number);
        if ends {
            self.verdict = Some(VerdictKind::Unbounded);
        }
        Ok(())
    }
}

fn outcome_of(cause: Cause) -> Outcome
    ensures { result ≡ outcome_of cause }
{
    match cause {
        Cause::Wide(at) => Outcome::Wide(at),
        Cause::Spent(at) => Outcome::Spent(at),
    }
}

fn is_unbounded(outcome: &Outcome) -> bool
    ensures { result ≡ is_unbounded outcome.now }
{
    match outcome {
        Outcome::Unbounded { .. } => true,
        _ => false,
    }
}
