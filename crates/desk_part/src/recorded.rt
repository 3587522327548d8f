//! A case, its options and the desk part, with a record that leads to it.
ghost use Rattle.std.specs.Prelude.{◌≡◌, ◌≢◌, ◌<◌, IfErr, IfOk, None, OnErr, OnOk, false, true};
ghost use Rattle.std.specs.Arc.{arc_value};
ghost use Rattle.play.specs.Lawful.{IsFree};
ghost use Rattle.play.specs.Parts.{start};
ghost use Rattle.play.specs.Truth.{AreApart, number_of};
ghost use Rattle.desk_part.specs.Absorbing.{EndsEach};
ghost use Rattle.desk_part.specs.DeskParts.{DrawsOn, EndingKeepsForm, IsBack, IsEndingOfRecord, IsOver, LearnsOn, MayBeSettled, SettlesOn, standing};

use crate::{DeskPart, Draw};
use lpcc_case::Case;
use play::{Ending, Options, Outcome, Ticket};
use std::alloc::{AllocError, Global};
use std::marker::Model;
use std::sync::Arc;

/// A desk part with its case and its options. Contracts see the three. The type keeps that some
/// record leads to the part.
pub struct RecordedPart {
    case: Arc<Case, Global>,
    options: Options,
    pub(crate) part: DeskPart,
}

/// By a call, which keeps the models of the functions small that own one.
impl Drop for RecordedPart {
    fn drop(self) {
        let RecordedPart {
            case: _,
            options: _,
            part: _,
        } = self;
    }
}

impl Model for RecordedPart {
    ghost use Rattle.std.specs.Prelude.{◌≡◌};
    ghost use Rattle.std.specs.Arc.{arc_value};
    ghost use Rattle.desk_part.specs.DeskParts.{Standing, IsCarried, IsSettled, standing};

    ghost Value = { Standing };

    ghost view = { λ d. standing (arc_value d.case) d.options d.part };

    ghost invariant = { λ d. IsCarried (arc_value d.case) d.options d.part × IsSettled d.part };
}

impl RecordedPart {
    /// The part to which nothing has happened, over a case that is shared. It takes no memory.
    pub fn over(alloc: Global, case: Arc<Case, Global>, options: &Options) -> RecordedPart
        ensures { result ≡ standing (arc_value case) options.now start }
    {
        RecordedPart {
            case,
            options: *options,
            part: DeskPart::create(alloc),
        }
    }

    /// The part to which nothing has happened, over a copy of the case.
    pub fn create(alloc: Global, case: &Case, options: &Options) -> Result<RecordedPart, AllocError>
        ensures { IfOk result (λ d. d ≡ standing case.now options.now start) }
    {
        let case = Arc::new(alloc, case.copy(alloc)?)?;
        Ok(RecordedPart::over(alloc, case, options))
    }

    /// The case.
    pub fn case(&self) -> &Case
        ensures { result.now ≡ self.now.case_of }
    {
        &self.case
    }

    /// The options.
    pub fn options(&self) -> &Options
        ensures { result.now ≡ self.now.options }
    {
        &self.options
    }

    /// The tickets in flight. No number stands twice.
    pub fn flight(&self) -> &[Ticket]
        ensures flight { result.now ≡ self.now.part.flight }
        ensures apart { AreApart number_of self.now.part.flight }
    {
        self.part.flight()
    }

    /// Whether there is a verdict.
    pub fn is_concluded(&self) -> bool
        ensures some { result ≡ true → self.now.part.verdict ≢ None }
        ensures none { result ≡ false → self.now.part.verdict ≡ None }
    {
        self.part.has_verdict()
    }

    /// Gives the worker the first piece that no absorbed cut bars and that is neither in flight
    /// nor set aside.
    pub fn draw(&mut self, alloc: Global, worker: u32) -> Result<Draw, AllocError>
        requires known { worker < self.old.options.workers }
        requires free { IsFree worker self.old.part.flight }
        ensures ok { IfOk result (DrawsOn worker self.old self.new) }
        ensures err { OnErr result (LearnsOn self.old self.new) }
    {
        self.part.draw(alloc, &self.case, &self.options, worker)
    }

    /// Settles a piece in flight.
    pub fn settle(
        &mut self,
        alloc: Global,
        ticket: Ticket,
        outcome: Outcome,
    ) -> Result<(), (Ticket, Outcome)>
        requires may { MayBeSettled self.old.case_of self.old.options self.old.part ticket outcome }
        ensures ok { OnOk result (SettlesOn ticket outcome self.old self.new) }
        ensures err { OnErr result (self.new ≡ self.old) }
        ensures back { IfErr result (IsBack ticket outcome) }
    {
        self.part
            .settle(alloc, &self.case, &self.options, ticket, outcome)
    }

    /// The ending of the record. Without memory the part is spent.
    pub fn close(self, alloc: Global) -> Result<Ending, AllocError>
        requires over { IsOver self.case_of self.options self.part }
        ensures ending { IfOk result (IsEndingOfRecord self.case_of self.options) }
        ensures form { IfOk result EndingKeepsForm }
        ensures each { IfOk result (EndsEach self.case_of self.options self.part) }
    {
        let RecordedPart {
            case,
            options,
            part,
        } = self;
        part.close(alloc, &case, &options)
    }
}
