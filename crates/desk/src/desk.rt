//! The desk with its shelf.
ghost use Rattle.std.specs.Prelude.{◌≡◌, ◌<◌, ◌≤◌, ◌↔◌, ℕ, IfErr, IfOk, IsTrue, None, OnErr, OnOk, Some, length, slice_index_or};
ghost use Rattle.std.specs.Option.{option_copied};
ghost use Rattle.play.specs.Causes.{IsTrueOutcome};
ghost use Rattle.play.specs.Lawful.{IsFree, MaySettle, OutcomeFits};
ghost use Rattle.cut_pool.specs.Reaches.{ReachView};
ghost use Rattle.cut_pool.specs.Shelves.{HasAll, IsNewReach, Readied, SameButRow};
ghost use Rattle.cut_pool.specs.Shelves as shelves;
ghost use Rattle.desk_part.specs.DeskParts.{EndingKeepsForm, IsBack, IsEndingOfRecord};
ghost use Rattle.desk.specs.Desks.{DeskView, Draws, Fits, HasEnding, IsNewDesk, Learns, abandoned, noted};
ghost use Rattle.desk.specs.Settling.{IsFromReach, Settles};

use crate::Draw;
use crate::tickets::holds;
use cut_pool::{Reach, Shelf, same_case};
use desk_part::{Draw as PartDraw, RecordedPart};
use lpcc_case::Case;
use play::{Ending, Options, Outcome, Ticket};
use std::alloc::{AllocError, Global};
use std::marker::Model;
use std::sync::Arc;

/// The shared state of a run. Contracts see the desk part with its case and options, the shelf,
/// whether a worker has abandoned the desk, and whether one has noted that its search over the pairs
/// has ended refuted. The type keeps that some record leads to the part, so that this is known of a
/// desk that comes out of a lock.
#[derive(Drop)]
pub struct Desk {
    pub(crate) run: RecordedPart,
    shelf: Shelf,
    abandoned: bool,
    refuted: bool,
}

impl Model for Desk {
    ghost use Rattle.std.specs.Prelude.{◌≡◌, length};
    ghost use Rattle.desk.specs.Desks.{DeskView};

    ghost Value = { DeskView };

    ghost view = { λ d. record { run = d.run; shelf = d.shelf; abandoned = d.abandoned; refuted = d.refuted } };

    ghost invariant = { λ d. (d.shelf.case ≡ d.run.case_of) × (length d.shelf.pages ≡ d.run.options.workers) };
}

impl Desk {
    /// The desk on which nothing has happened, and the reaches of the workers. They share one copy
    /// of the case.
    pub fn create(
        alloc: Global,
        case: &Case,
        options: &Options,
    ) -> Result<(Desk, Vec<Reach>), AllocError>
        ensures desk { IfOk result (λ made. IsNewDesk case.now options.now made.0) }
        ensures count { IfOk result (λ made. length made.1.items ≡ options.now.workers) }
        ensures reaches { IfOk result (λ made. (k : ℕ) (v : ReachView) → k < options.now.workers → IsNewReach made.0.shelf k (slice_index_or made.1.items k v)) }
    {
        let (shelf, reaches) = Shelf::create(alloc, case, options.workers.number())?;
        let shared = Arc::try_clone(shelf.case())?;
        let desk = Desk {
            run: RecordedPart::over(alloc, shared, options),
            shelf,
            abandoned: false,
            refuted: false,
        };
        Ok((desk, reaches))
    }

    /// Readies a worker for its next turn, as the shelf does. It is called before each draw.
    pub fn ready(&mut self, alloc: Global, worker: u32, reach: &mut Reach) -> Result<(), AllocError>
        requires { shelves.Fits self.old.shelf worker reach.old }
        ensures fits { shelves.Fits self.new.shelf worker reach.new }
        ensures readied { Readied reach.old reach.new }
        ensures ok { OnOk result ((1 ≤ reach.new.spare) × HasAll self.new.shelf reach.new) }
        ensures rest { SameButRow self.old.shelf self.new.shelf worker }
        ensures same { (self.new.run ≡ self.old.run) × (self.new.abandoned ≡ self.old.abandoned) × (self.new.refuted ≡ self.old.refuted) }
    {
        self.shelf.ready(alloc, worker, reach)
    }

    /// Whether the desk is one of this case and these options. It takes no memory.
    pub fn is_for(&self, case: &Case, options: &Options) -> bool
        ensures { IsTrue result ↔ ((self.now.run.case_of ≡ case.now) × (self.now.run.options ≡ options.now)) }
    {
        if !same_case(self.run.case(), case) {
            return false;
        }
        *self.run.options() == *options
    }

    /// Whether the worker is one of the desk's, the reach fits the shelf, and the worker's tickets
    /// in flight are none, or just this one. It takes no memory.
    pub fn fits(&self, worker: u32, reach: &Reach, ticket: Option<&Ticket>) -> bool
        ensures { IsTrue result ↔ Fits self.now worker reach.now (option_copied ticket.entry) }
    {
        if !self.shelf.fits(worker, reach) {
            return false;
        }
        holds(self.run.flight(), worker, ticket)
    }

    /// Gives the worker the first piece that no absorbed cut bars and that is neither in flight
    /// nor set aside. It concludes where nothing is in flight and every piece is barred. On a desk
    /// that was abandoned and has not concluded it changes nothing.
    ///
    /// # Errors
    ///
    /// Want of memory, where steps may have been learned, and nothing else has changed.
    pub fn draw(&mut self, alloc: Global, worker: u32) -> Result<Draw, AllocError>
        requires known { worker < self.old.run.options.workers }
        requires free { IsFree worker self.old.run.part.flight }
        ensures ok { IfOk result (Draws worker self.old self.new) }
        ensures err { OnErr result (Learns self.old self.new) }
    {
        if self.run.is_concluded() {
            return Ok(Draw::Done);
        }
        if self.abandoned {
            return Ok(Draw::Left);
        }
        match self.run.draw(alloc, worker)? {
            PartDraw::Piece(ticket) => Ok(Draw::Piece(ticket)),
            PartDraw::Pause => Ok(Draw::Pause),
            PartDraw::Done => Ok(Draw::Done),
        }
    }

    /// Settles a drawn piece: lowers the best point, and then absorbs the cut. Behind a verdict it
    /// only takes the ticket back.
    ///
    /// # Errors
    ///
    /// Want of memory, where both are handed back and nothing has changed.
    pub fn settle(
        &mut self,
        alloc: Global,
        reach: &Reach,
        ticket: Ticket,
        outcome: Outcome,
    ) -> Result<(), (Ticket, Outcome)>
        requires fits { Fits self.old ticket.worker reach.now (Some ticket) }
        requires parts { OutcomeFits self.old.run.case_of self.old.run.options.workers outcome }
        requires may { MaySettle self.old.run.case_of ticket outcome }
        requires truth { IsTrueOutcome self.old.run.case_of self.old.run.options ticket outcome }
        requires reach { IsFromReach reach.now ticket.piece outcome }
        ensures ok { OnOk result (Settles ticket outcome self.old self.new) }
        ensures err { OnErr result (self.new ≡ self.old) }
        ensures back { IfErr result (IsBack ticket outcome) }
    {
        let _flight = self.run.flight();
        self.run.settle(alloc, ticket, outcome)
    }

    /// Takes the ticket back, and marks a desk that has not concluded as abandoned. The ticket stays
    /// in flight in the record. It takes no memory.
    pub fn abandon(&mut self, ticket: Option<Ticket>)
        ensures { self.new ≡ abandoned self.old }
    {
        drop(ticket);
        if !self.run.is_concluded() {
            self.abandoned = true;
        }
    }

    /// Notes that a worker's search over the pairs has ended refuted, so that the others need not
    /// search on. It is a hint, and nothing rests on it. It takes no memory.
    pub fn note_refuted(&mut self)
        ensures { self.new ≡ noted self.old }
    {
        self.refuted = true;
    }

    /// Whether a worker has noted that its search over the pairs has ended refuted.
    pub fn is_refuted(&self) -> bool
        ensures { result ≡ self.now.refuted }
    {
        self.refuted
    }

    /// The ending of the record, which is never want of memory. Without memory the desk is spent.
    pub fn close(self, alloc: Global) -> Result<Ending, AllocError>
        requires ending { HasEnding self }
        ensures ending { IfOk result (IsEndingOfRecord self.run.case_of self.run.options) }
        ensures form { IfOk result EndingKeepsForm }
    {
        let Desk { run, .. } = self;
        run.close(alloc)
    }
}
