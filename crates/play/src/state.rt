//! The machine as values: which events are lawful, and what each changes.
ghost use Rattle.std.specs.Prelude.{◌≡◌, ◌<◌, ◌-◌, ◌^◌, ◌↔◌, IfOk, IsTrue, OnErr, OnOk};
ghost use Rattle.play.specs.declared.event.Event.TheVariants as event;
ghost use Rattle.play.specs.Lawful.{IsLawful};
ghost use Rattle.play.specs.Machines.{IsStep, beginning, step, workers_of};

use crate::desk_state::DeskState;
use crate::fits::{is_piece, outcome_fits};
use crate::outer_state::OuterState;
use crate::settlement::{is_best, passes};
use crate::{Event, Lawful, Outcome, Ticket, VerdictKind};
use cuts::Cut;
use lp_base::Sequence;
use lpcc_case::{Case, Point, names_pairs};
use nogoods::{NoGood, Piece};
use std::alloc::{AllocError, Global};
use std::marker::Model;

/// The state of a run: the desk part, and round it the lanes, what each worker has read of them,
/// and the turns at the incumbent. Contracts see the state of the pure machine.
pub struct State {
    desk: DeskState,
    outer: OuterState,
}

/// By a call, which keeps the models of the functions small that own one.
impl Drop for State {
    fn drop(self) {
        let State { desk: _, outer: _ } = self;
    }
}

impl Model for State {
    ghost use Rattle.play.specs.Parts.{Machine};

    ghost Value = { Machine };

    ghost view = { λ s. record { part = s.desk; outer = s.outer } };
}

impl State {
    /// So many workers, and nothing has happened.
    pub fn start(alloc: Global, _case: &Case, workers: u32) -> Result<State, AllocError>
        ensures { IfOk result (λ s. s ≡ beginning workers) }
    {
        Ok(State {
            desk: DeskState::start(alloc),
            outer: OuterState::start(alloc, workers)?,
        })
    }

    /// Whether there is a worker of this number.
    fn has_worker(&self, worker: u32) -> bool
        ensures { IsTrue result ↔ (worker < workers_of self.now) }
    {
        (worker as usize) < self.outer.workers()
    }

    fn is_lawful_publish(&self, case: &Case, lane: u32, cut: &Cut) -> bool
        ensures { IsTrue result ↔ IsLawful case.now (workers_of self.now) self.now (event.Publish lane cut.now) }
    {
        self.has_worker(lane) && passes(case, cut)
    }

    fn publish(&mut self, case: &Case, lane: u32, cut: Cut) -> Result<Lawful, AllocError>
        ensures ok { IfOk result (IsStep case.now self.old (event.Publish lane cut) self.new) }
        ensures err { OnErr result (self.new ≡ self.old) }
    {
        if !self.is_lawful_publish(case, lane, &cut) {
            return Ok(Lawful::No);
        }
        self.outer.publish(lane, cut)?;
        Ok(Lawful::Yes)
    }

    fn is_lawful_read(&self, case: &Case, worker: u32, lane: u32, place: u128) -> bool
        ensures lawful { IsTrue result ↔ IsLawful case.now (workers_of self.now) self.now (event.Read worker lane place) }
        ensures few { IsTrue result → place < 2 ^ 64 - 1 }
    {
        self.has_worker(worker) && self.has_worker(lane) && self.outer.may_read(worker, lane, place)
    }

    fn read(&mut self, case: &Case, worker: u32, lane: u32, place: u128) -> Lawful
        ensures { IsStep case.now self.old (event.Read worker lane place) self.new result }
    {
        if !self.is_lawful_read(case, worker, lane, place) {
            return Lawful::No;
        }
        self.outer.read(worker, lane, place);
        Lawful::Yes
    }

    fn is_lawful_offer(&self, case: &Case, worker: u32, point: &Option<Point>) -> bool
        ensures { IsTrue result ↔ IsLawful case.now (workers_of self.now) self.now (event.Offer worker point.now) }
    {
        self.has_worker(worker) && is_best(case, point)
    }

    fn offer(
        &mut self,
        case: &Case,
        worker: u32,
        point: Option<Point>,
    ) -> Result<Lawful, AllocError>
        ensures ok { IfOk result (IsStep case.now self.old (event.Offer worker point) self.new) }
        ensures err { OnErr result (self.new ≡ self.old) }
    {
        if !self.is_lawful_offer(case, worker, &point) {
            return Ok(Lawful::No);
        }
        self.outer.offer(worker, point)?;
        Ok(Lawful::Yes)
    }

    fn is_lawful_draw(&self, case: &Case, worker: u32, ticket: u64, piece: &Piece) -> bool
        ensures { IsTrue result ↔ IsLawful case.now (workers_of self.now) self.now (event.Draw worker ticket piece.now) }
    {
        self.has_worker(worker)
            && is_piece(case, piece)
            && self.desk.may_draw(worker, ticket, piece)
    }

    fn draw(
        &mut self,
        case: &Case,
        worker: u32,
        ticket: u64,
        piece: Piece,
    ) -> Result<Lawful, AllocError>
        ensures ok { IfOk result (IsStep case.now self.old (event.Draw worker ticket piece) self.new) }
        ensures err { OnErr result (self.new ≡ self.old) }
    {
        if !self.is_lawful_draw(case, worker, ticket, &piece) {
            return Ok(Lawful::No);
        }
        self.desk.draw(Ticket {
            worker,
            number: ticket,
            piece,
        })?;
        Ok(Lawful::Yes)
    }

    fn is_lawful_absorb(&self, case: &Case, cut: &Cut) -> bool
        ensures { IsTrue result ↔ IsLawful case.now (workers_of self.now) self.now (event.Absorb cut.now) }
    {
        self.desk.may_absorb(case, cut)
    }

    fn absorb(&mut self, alloc: Global, case: &Case, cut: Cut) -> Result<Lawful, AllocError>
        ensures ok { IfOk result (IsStep case.now self.old (event.Absorb cut) self.new) }
        ensures err { OnErr result (self.new ≡ self.old) }
    {
        if !self.is_lawful_absorb(case, &cut) {
            return Ok(Lawful::No);
        }
        self.desk.absorb(alloc, case, cut)?;
        Ok(Lawful::Yes)
    }

    fn is_lawful_learn(&self, case: &Case, ng: &NoGood, hints: &[u64]) -> bool
        ensures { IsTrue result ↔ IsLawful case.now (workers_of self.now) self.now (event.Learn ng.now hints.now) }
    {
        names_pairs(case, ng.choices()) && self.desk.may_learn(case, ng, hints)
    }

    fn learn(&mut self, case: &Case, ng: NoGood, hints: Sequence<u64>) -> Result<Lawful, AllocError>
        ensures ok { IfOk result (IsStep case.now self.old (event.Learn ng hints) self.new) }
        ensures err { OnErr result (self.new ≡ self.old) }
    {
        if !self.is_lawful_learn(case, &ng, hints.as_slice()) {
            return Ok(Lawful::No);
        }
        self.desk.learn(case, ng, hints)?;
        Ok(Lawful::Yes)
    }

    fn is_lawful_settle(
        &self,
        alloc: Global,
        case: &Case,
        worker: u32,
        ticket: u64,
        outcome: &Outcome,
    ) -> Result<bool, AllocError>
        ensures { IfOk result (λ is. IsTrue is ↔ IsLawful case.now (workers_of self.now) self.now (event.Settle worker ticket outcome.now)) }
    {
        if !self.has_worker(worker) {
            return Ok(false);
        }
        if !outcome_fits(case, self.outer.workers(), outcome) {
            return Ok(false);
        }
        if !self.desk.may_settle(alloc, case, worker, ticket, outcome)? {
            return Ok(false);
        }
        Ok(self.desk.has_verdict() || self.outer.may_take(worker, outcome))
    }

    fn settle(
        &mut self,
        alloc: Global,
        case: &Case,
        worker: u32,
        ticket: u64,
        outcome: Outcome,
    ) -> Result<Lawful, AllocError>
        ensures ok { IfOk result (IsStep case.now self.old (event.Settle worker ticket outcome) self.new) }
        ensures err { OnErr result (self.new ≡ self.old) }
    {
        if !self.is_lawful_settle(alloc, case, worker, ticket, &outcome)? {
            return Ok(Lawful::No);
        }
        self.desk.settle(alloc, case, worker, ticket, outcome)?;
        Ok(Lawful::Yes)
    }

    fn is_lawful_conclude(&self, case: &Case, verdict: VerdictKind) -> bool
        ensures { IsTrue result ↔ IsLawful case.now (workers_of self.now) self.now (event.Conclude verdict) }
    {
        self.desk.may_conclude(case, verdict)
    }

    fn conclude(&mut self, case: &Case, verdict: VerdictKind) -> Lawful
        ensures { IsStep case.now self.old (event.Conclude verdict) self.new result }
    {
        if !self.is_lawful_conclude(case, verdict) {
            return Lawful::No;
        }
        self.desk.conclude(verdict);
        Lawful::Yes
    }

    /// Takes the event where it is lawful, and says whether it is. An event that is not lawful
    /// changes nothing, and without memory nothing changes.
    pub fn step(&mut self, alloc: Global, case: &Case, event: Event) -> Result<Lawful, AllocError>
        ensures ok { IfOk result (IsStep case.now self.old event self.new) }
        ensures err { OnErr result (self.new ≡ self.old) }
    {
        match event {
            Event::Publish { lane, cut } => self.publish(case, lane, cut),
            Event::Read {
                worker,
                lane,
                place,
            } => Ok(self.read(case, worker, lane, place)),
            Event::Offer { worker, point } => self.offer(case, worker, point),
            Event::Draw {
                worker,
                ticket,
                piece,
            } => self.draw(case, worker, ticket, piece),
            Event::Absorb { cut } => self.absorb(alloc, case, cut),
            Event::Learn { ng, hints } => self.learn(case, ng, hints),
            Event::Settle {
                worker,
                ticket,
                outcome,
            } => self.settle(alloc, case, worker, ticket, outcome),
            Event::Conclude { verdict } => Ok(self.conclude(case, verdict)),
        }
    }
}
