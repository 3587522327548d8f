//! The desk part of the machine, as values: which events are lawful on it, and what each changes.
ghost use Rattle.std.specs.Prelude.{◌≡◌, ◌≢◌, ◌<◌, ◌^◌, ◌-◌, ◌↔◌, [], Any, Contains, IfOk, IsTrue, None, OnErr, OnOk, Some, false, true};
ghost use Rattle.derivation.specs.HintRuns.{closes};
ghost use Rattle.derivation.specs.Logs as logs;
ghost use Rattle.derivation.specs.Logs.{no_goods};
ghost use Rattle.nogoods.specs.Pieces.{Bars};
ghost use Rattle.lpcc_case.specs.Pieces.{NamesPairs};
ghost use Rattle.cuts.specs.Cuts.{no_good_of};
ghost use Rattle.search.specs.FirstPieces.{IsBarred};
ghost use Rattle.play.specs.declared.event.Event.TheVariants as event;
ghost use Rattle.play.specs.Lawful.{IsOpen, MayDraw, MaySettle, Row};
ghost use Rattle.play.specs.Parts.{barring, flight_of, start, taken};
ghost use Rattle.play.specs.Points.{IsBest};
ghost use Rattle.play.specs.Steps as steps;

use crate::settlement::{is_active, may_settle, passes};
use crate::tickets::{flight_of, is_aside, is_flying, is_free, land};
use crate::{Aside, Cause, Direction, Outcome, Ticket, VerdictKind, lowered};
use cuts::Cut;
use derivation::{Log, Step, follows};
use lp_base::Sequence;
use lpcc_case::{Case, Point};
use nogoods::{NoGood, Piece, bars};
use std::alloc::{AllocError, Global};
use std::marker::Model;

/// The absorbed cuts with their log, the pieces in flight and those set aside, the number of
/// draws, the best point, a kept unbounded outcome and the verdict. Contracts see these parts.
pub(crate) struct DeskState {
    absorbed: Vec<Cut>,
    log: Log,
    flight: Vec<Ticket>,
    aside: Vec<Aside>,
    drawn: u64,
    best: Option<Point>,
    unbounded: Option<Direction>,
    verdict: Option<VerdictKind>,
}

/// By a call, which keeps the models of the functions small that own one.
impl Drop for DeskState {
    fn drop(self) {
        let DeskState {
            absorbed: _,
            log: _,
            flight: _,
            aside: _,
            drawn: _,
            best: _,
            unbounded: _,
            verdict: _,
        } = self;
    }
}

impl Model for DeskState {
    ghost use Rattle.std.specs.Prelude.{◌≤ℤ◌, All, IfSome, pos};
    ghost use Rattle.derivation.specs.HintRuns.{NamesBelow};
    ghost use Rattle.derivation.specs.Logs.{no_goods};
    ghost use Rattle.lp_base.specs.declared.limits.TheConstants.{MOST_PAIRS};
    ghost use Rattle.play.specs.Parts.{Part};

    ghost Value = { Part };

    ghost view = { λ d. record { absorbed = d.absorbed.items; log = d.log; flight = d.flight.items; aside = d.aside.items; drawn = d.drawn; best = d.best; unbounded = d.unbounded; verdict = d.verdict } };

    ghost invariant = { λ d. All (NamesBelow MOST_PAIRS) (no_goods d.log) × IfSome d.best (λ q. pos 1 ≤ℤ q.d) };
}

fn is_empty(step: &Step) -> bool
    ensures { IsTrue result ↔ (logs.no_good_of step.now ≡ []) }
{
    match step {
        Step::Start(ng) => ng.choices().is_empty(),
        Step::Derived(ng, _) => ng.choices().is_empty(),
    }
}

fn has_empty(steps: &[Step]) -> bool
    ensures { IsTrue result ↔ Any (λ s. logs.no_good_of s ≡ []) steps.now }
{
    steps.iter().any(|step| is_empty(step))
}

/// Whether one of the cuts bars the piece.
fn bar(cuts: &[Cut], piece: &Piece) -> bool
    ensures { IsTrue result ↔ Any (λ c. Bars (no_good_of c) piece.now) cuts.now }
{
    cuts.iter().any(|cut| bars(cut.no_good(), piece))
}

impl DeskState {
    /// Nothing has happened. It takes no memory.
    pub(crate) fn start(alloc: Global) -> DeskState
        ensures { result ≡ start }
    {
        DeskState {
            absorbed: Vec::new(alloc),
            log: Log::create(alloc),
            flight: Vec::new(alloc),
            aside: Vec::new(alloc),
            drawn: 0,
            best: None,
            unbounded: None,
            verdict: None,
        }
    }

    /// Whether there is a verdict.
    pub(crate) fn has_verdict(&self) -> bool
        ensures some { result ≡ true → self.now.verdict ≢ None }
        ensures none { result ≡ false → self.now.verdict ≡ None }
    {
        self.verdict.is_some()
    }

    /// Whether there is neither a verdict nor a kept unbounded outcome.
    fn is_open(&self) -> bool
        ensures { IsTrue result ↔ IsOpen self.now }
    {
        self.verdict.is_none() && self.unbounded.is_none()
    }

    /// Whether one of the absorbed cuts bars the piece.
    fn is_barred(&self, piece: &Piece) -> bool
        ensures { IsTrue result ↔ IsBarred (barring self.now) piece.now }
    {
        bar(self.absorbed.as_slice(), piece)
    }

    /// Whether a worker has the piece, or it was set aside.
    fn is_taken(&self, piece: &Piece) -> bool
        ensures { IsTrue result ↔ Contains (taken self.now) piece.now }
    {
        if is_flying(self.flight.as_slice(), piece) {
            return true;
        }
        is_aside(self.aside.as_slice(), piece)
    }

    /// Whether the log has a step without choices.
    fn has_empty_step(&self) -> bool
        ensures { IsTrue result ↔ Contains (no_goods self.now.log) [] }
    {
        has_empty(self.log.steps())
    }

    /// Whether the draw is lawful.
    pub(crate) fn may_draw(&self, worker: u32, ticket: u64, piece: &Piece) -> bool
        ensures { IsTrue result ↔ MayDraw self.now worker ticket piece.now }
    {
        self.is_open()
            && is_free(worker, self.flight.as_slice())
            && ticket == self.drawn
            && ticket < u64::MAX
            && !self.is_barred(piece)
            && !self.is_taken(piece)
    }

    /// Whether the cut may be absorbed.
    pub(crate) fn may_absorb(&self, case: &Case, cut: &Cut) -> bool
        ensures { IsTrue result ↔ Row case.now self.now (event.Absorb cut.now) }
    {
        !self.has_verdict() && passes(case, cut) && is_active(case, cut, &self.best)
    }

    /// Whether the no-good may be learned over these hints.
    pub(crate) fn may_learn(&self, case: &Case, ng: &NoGood, hints: &[u64]) -> bool
        requires { NamesPairs case.now ng.now }
        ensures { IsTrue result ↔ Row case.now self.now (event.Learn ng.now hints.now) }
    {
        let _pairs = case.pairs();
        !self.has_verdict() && follows(&self.log, ng, hints)
    }

    /// Whether the outcome may settle the ticket.
    pub(crate) fn may_settle(
        &self,
        alloc: Global,
        case: &Case,
        worker: u32,
        number: u64,
        outcome: &Outcome,
    ) -> Result<bool, AllocError>
        ensures { IfOk result (λ may. IsTrue may ↔ Row case.now self.now (event.Settle worker number outcome.now)) }
    {
        let Some(ticket) = flight_of(number, self.flight.as_slice()) else {
            return Ok(false);
        };
        if ticket.worker != worker {
            return Ok(false);
        }
        if self.has_verdict() {
            return Ok(true);
        }
        may_settle(alloc, case, ticket, outcome)
    }

    /// Whether the desk may come to the verdict.
    pub(crate) fn may_conclude(&self, case: &Case, verdict: VerdictKind) -> bool
        ensures { IsTrue result ↔ Row case.now self.now (event.Conclude verdict) }
    {
        if self.has_verdict() {
            return false;
        }
        match verdict {
            VerdictKind::Optimal => self.has_empty_step() && self.best.is_some(),
            VerdictKind::Infeasible => self.has_empty_step() && self.best.is_none(),
            VerdictKind::Unbounded => self.unbounded.is_some(),
        }
    }

    /// The piece is in flight. Without memory nothing changes.
    pub(crate) fn draw(&mut self, ticket: Ticket) -> Result<(), AllocError>
        requires { self.old.drawn < 2 ^ 64 - 1 }
        ensures ok { OnOk result (self.new ≡ steps.draw ticket self.old) }
        ensures err { OnErr result (self.new ≡ self.old) }
    {
        self.flight.push(ticket)?;
        self.drawn += 1;
        Ok(())
    }

    /// The cut is absorbed, and its no-good is a start of the log. Without memory nothing changes.
    pub(crate) fn absorb(&mut self, alloc: Global, case: &Case, cut: Cut) -> Result<(), AllocError>
        requires { NamesPairs case.now (no_good_of cut) }
        ensures ok { OnOk result (self.new ≡ steps.absorb cut self.old) }
        ensures err { OnErr result (self.new ≡ self.old) }
    {
        let _pairs = case.pairs();
        let ng = cut.no_good().copy(alloc)?;
        self.absorbed.reserve(1)?;
        self.log.start(ng)?;
        self.absorbed.push(cut)?;
        Ok(())
    }

    /// The no-good is derived. Without memory nothing changes.
    pub(crate) fn learn(
        &mut self,
        case: &Case,
        ng: NoGood,
        hints: Sequence<u64>,
    ) -> Result<(), AllocError>
        requires named { NamesPairs case.now ng }
        requires follows { closes (no_goods self.old.log) ng hints ≡ true }
        ensures ok { OnOk result (self.new ≡ steps.after (event.Learn ng hints) self.old) }
        ensures err { OnErr result (self.new ≡ self.old) }
    {
        let _pairs = case.pairs();
        self.log.derive(ng, hints)
    }

    /// A copy of the ticket in flight of this number.
    fn ticket(&self, alloc: Global, number: u64) -> Result<Ticket, AllocError>
        requires { flight_of number self.now.flight ≢ None }
        ensures { IfOk result (λ ticket. flight_of number self.now.flight ≡ Some ticket) }
    {
        match flight_of(number, self.flight.as_slice()) {
            Some(ticket) => Ok(Ticket {
                worker: ticket.worker,
                number: ticket.number,
                piece: ticket.piece.copy(alloc)?,
            }),
            None => unreachable!(),
        }
    }

    /// The best point falls, if it does, and then the cut is absorbed. Without memory nothing
    /// changes.
    fn take_cut(
        &mut self,
        alloc: Global,
        case: &Case,
        cut: Cut,
        best: Option<Point>,
    ) -> Result<(), AllocError>
        requires named { NamesPairs case.now (no_good_of cut) }
        requires best { IsBest case.now best }
        ensures ok { OnOk result (self.new ≡ steps.take_cut cut best self.old) }
        ensures err { OnErr result (self.new ≡ self.old) }
    {
        self.absorb(alloc, case, cut)?;
        self.best = lowered(self.best.take(), best);
        Ok(())
    }

    /// The piece of the ticket is set aside. Without memory nothing changes.
    fn set_aside(&mut self, ticket: Ticket, cause: Cause) -> Result<(), AllocError>
        ensures ok { OnOk result (self.new ≡ steps.set_aside ticket cause self.old) }
        ensures err { OnErr result (self.new ≡ self.old) }
    {
        self.aside.push(Aside {
            ticket: ticket.number,
            piece: ticket.piece,
            cause,
        })?;
        Ok(())
    }

    /// What the outcome changes, where there is no verdict. Without memory nothing changes.
    fn take_outcome(
        &mut self,
        alloc: Global,
        case: &Case,
        ticket: Ticket,
        outcome: Outcome,
    ) -> Result<(), AllocError>
        requires may { MaySettle case.now ticket outcome }
        ensures ok { OnOk result (self.new ≡ steps.take_outcome ticket outcome self.old) }
        ensures err { OnErr result (self.new ≡ self.old) }
    {
        match outcome {
            Outcome::Cut { cut, best, .. } => self.take_cut(alloc, case, cut, best),
            Outcome::Barred { cut, best, .. } => self.take_cut(alloc, case, cut, best),
            Outcome::Unbounded { point, ray } => {
                self.unbounded = Some(Direction {
                    piece: ticket.piece,
                    point,
                    ray,
                });
                Ok(())
            }
            Outcome::Wide(at) => self.set_aside(ticket, Cause::Wide(at)),
            Outcome::Spent(at) => self.set_aside(ticket, Cause::Spent(at)),
        }
    }

    /// What the outcome changes; behind a verdict nothing. Without memory nothing changes.
    #[tactic(auto, using(crate::proofs::StateLaws::settlements))]
    fn take_open(
        &mut self,
        alloc: Global,
        case: &Case,
        ticket: Ticket,
        outcome: Outcome,
    ) -> Result<(), AllocError>
        requires may { self.old.verdict ≡ None → MaySettle case.now ticket outcome }
        ensures ok { OnOk result (self.new ≡ steps.take_open self.old.verdict ticket outcome self.old) }
        ensures err { OnErr result (self.new ≡ self.old) }
    {
        if self.has_verdict() {
            return Ok(());
        }
        self.take_outcome(alloc, case, ticket, outcome)
    }

    /// The outcome settles the ticket. Without memory nothing changes.
    pub(crate) fn settle(
        &mut self,
        alloc: Global,
        case: &Case,
        worker: u32,
        number: u64,
        outcome: Outcome,
    ) -> Result<(), AllocError>
        requires lawful { Row case.now self.old (event.Settle worker number outcome) }
        ensures ok { OnOk result (self.new ≡ steps.after (event.Settle worker number outcome) self.old) }
        ensures err { OnErr result (self.new ≡ self.old) }
    {
        let ticket = self.ticket(alloc, number)?;
        self.take_open(alloc, case, ticket, outcome)?;
        land(number, &mut self.flight);
        Ok(())
    }

    /// There is a verdict.
    pub(crate) fn conclude(&mut self, verdict: VerdictKind)
        ensures { self.new ≡ steps.after (event.Conclude verdict) self.old }
    {
        self.verdict = Some(verdict);
    }
}
