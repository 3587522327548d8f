//! Cuts that a desk absorbs besides those that settle pieces.
ghost use Rattle.std.specs.Prelude.{◌≡◌, OnErr, OnOk};
ghost use Rattle.desk_part.specs.Absorbing.{MayBeAbsorbed};
ghost use Rattle.desk.specs.Absorbing.{Absorbs};

use crate::Desk;
use cuts::Cut;
use std::alloc::{AllocError, Global};

impl Desk {
    /// Absorbs a cut that passes its test for the case and is active against the best point, while
    /// there is no verdict.
    ///
    /// # Errors
    ///
    /// Want of memory alone, where nothing changes.
    pub fn absorb(&mut self, alloc: Global, cut: Cut) -> Result<(), AllocError>
        requires may { MayBeAbsorbed self.old.run.case_of self.old.run.part cut }
        ensures ok { OnOk result (Absorbs cut self.old self.new) }
        ensures err { OnErr result (self.new ≡ self.old) }
    {
        self.run.absorb(alloc, cut)
    }
}
