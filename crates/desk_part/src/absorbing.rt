//! Cuts that are absorbed besides those that settle pieces.
ghost use Rattle.std.specs.Prelude.{◌≡◌, OnErr, OnOk};
ghost use Rattle.std.specs.Option.{option_copied};
ghost use Rattle.play.specs.Points.{IsBest};
ghost use Rattle.play.specs.Steps.{absorb};
ghost use Rattle.desk_part.specs.Absorbing.{AbsorbsOn, MayBeAbsorbed};

use crate::settle::absorb;
use crate::{DeskPart, RecordedPart};
use cuts::Cut;
use lpcc_case::Point;
use std::alloc::{AllocError, Global};

impl DeskPart {
    /// Absorbs the cut. Without memory nothing changes.
    fn absorb(&mut self, alloc: Global, cut: Cut) -> Result<(), AllocError>
        ensures ok { OnOk result (self.new ≡ absorb cut self.old) }
        ensures err { OnErr result (self.new ≡ self.old) }
    {
        match absorb(alloc, &mut self.absorbed, &mut self.log, cut) {
            Ok(()) => Ok(()),
            Err(_) => Err(AllocError),
        }
    }

    /// The best point so far.
    fn best(&self) -> Option<&Point>
        ensures { option_copied result ≡ self.now.best }
    {
        self.best.as_ref()
    }
}

impl RecordedPart {
    /// Absorbs a cut that passes its test for the case and is active against the best point, while
    /// there is no verdict.
    ///
    /// # Errors
    ///
    /// Want of memory alone, where nothing changes.
    pub fn absorb(&mut self, alloc: Global, cut: Cut) -> Result<(), AllocError>
        requires may { MayBeAbsorbed self.old.case_of self.old.part cut }
        ensures ok { OnOk result (AbsorbsOn cut self.old self.new) }
        ensures err { OnErr result (self.new ≡ self.old) }
    {
        self.part.absorb(alloc, cut)
    }

    /// The best point so far.
    pub fn best(&self) -> Option<&Point>
        ensures value { option_copied result ≡ self.now.part.best }
        ensures feasible { IsBest self.now.case_of self.now.part.best }
    {
        self.part.best()
    }
}
