//! A session.
ghost use Rattle.std.specs.Prelude.{◌≡◌, [], All, IfErr, IfOk, OnErr, OnOk};
ghost use Rattle.cuts.specs.Cuts.{Passes};
ghost use Rattle.case_edits.specs.Edits.{IsRefusedBy};
ghost use Rattle.engine.specs.Solved.{PiecesLast, PivotsLast, VerdictsAreShown, alone};
ghost use Rattle.edit_session.specs.Answers.{Answers, IsEditedSession};

use crate::answering::answer_over;
use case_edits::{Edit, EditFault, KeptCuts};
use cuts::Cut;
use lpcc_case::Case;
use play::{Ending, Options, Workers};
use std::alloc::{AllocError, Global};
use std::marker::Model;

/// A case that is edited, with the cuts that are kept for it, and the options of its answers.
/// Contracts see all of them.
pub struct Session {
    kept: KeptCuts,
    options: Options,
}

/// By a call, which keeps the models of the functions small that own one.
impl Drop for Session {
    fn drop(self) {
        let Session {
            kept: _,
            options: _,
        } = self;
    }
}

impl Model for Session {
    ghost use Rattle.edit_session.specs.Answers.{SessionView};

    ghost Value = { SessionView };

    ghost view = { λ s. record { kept = s.kept; options = s.options } };
}

impl Session {
    /// A session over the case, without kept cuts. It takes no memory.
    pub fn create(alloc: Global, case: Case, options: Options) -> Session
        ensures { result ≡ record { kept = record { case_of = case; cuts = [] }; options = options } }
    {
        Session {
            kept: KeptCuts::create(alloc, case),
            options,
        }
    }

    /// The present case.
    pub fn case(&self) -> &Case
        ensures { result.now ≡ self.now.kept.case_of }
    {
        self.kept.case()
    }

    /// The cuts that are kept, the oldest first. Each passes its test for the present case.
    pub fn kept(&self) -> &[Cut]
        ensures list { result.now ≡ self.now.kept.cuts }
        ensures passing { All (Passes self.now.kept.case_of) self.now.kept.cuts }
    {
        self.kept.cuts()
    }

    /// Makes the edit. The cuts that are kept behind it are those of before, in their order, that
    /// pass the test of the new case, the value of a point cut made anew.
    ///
    /// # Errors
    ///
    /// Why the edit may not be made: NoSuch before Loosens, and Loosens before Limit; and want of
    /// memory, where it may. Then nothing changes.
    pub fn edit(&mut self, alloc: Global, edit: Edit) -> Result<(), EditFault>
        ensures ok { OnOk result (IsEditedSession edit self.old self.new) }
        ensures err { IfErr result (IsRefusedBy self.old.kept.case_of edit) }
        ensures same { OnErr result (self.new ≡ self.old) }
    {
        self.kept.edit(alloc, edit)
    }

    /// The ending of a run with one worker over the present case, whatever number of workers the
    /// options name. At each of its draws those of the kept cuts have been absorbed that are active
    /// against the best point. The cuts that settled its pieces are kept behind the others.
    ///
    /// # Errors
    ///
    /// Want of memory alone, where nothing changes. It is no ending.
    pub fn answer(&mut self, alloc: Global) -> Result<Ending, AllocError>
        ensures ok { IfOk result (Answers self.old self.new) }
        ensures err { OnErr result (self.new ≡ self.old) }
        ensures verdict { IfOk result (VerdictsAreShown self.old.kept.case_of (alone self.old.options)) }
        ensures pieces { IfOk result (PiecesLast self.old.kept.case_of self.old.options) }
        ensures pivots { IfOk result (PivotsLast self.old.kept.case_of self.old.options) }
    {
        let options = Options {
            workers: Workers::one(),
            ..self.options
        };
        let (ending, settled) = answer_over(alloc, self.kept.case(), &options, self.kept.cuts())?;
        self.kept.keep(settled)?;
        Ok(ending)
    }
}
