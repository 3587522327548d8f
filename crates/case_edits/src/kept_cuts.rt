//! A case with the cuts that are kept for it.
ghost use Rattle.std.specs.Prelude.{◌≡◌, ◌++◌, [], All, IfErr, IfOk, OnErr, OnOk};
ghost use Rattle.cuts.specs.Cuts.{Passes};
ghost use Rattle.case_edits.specs.Edits.{IsRefusedBy};
ghost use Rattle.case_edits.specs.Kept.{IsEdited, IsEditedAs};

use crate::edited::edited;
use crate::judged::judge;
use crate::kept::kept_cuts;
use crate::{Edit, EditFault};
use cuts::Cut;
use lpcc_case::Case;
use std::alloc::{AllocError, Global};
use std::marker::Model;

/// A case with cuts that are kept for it, each of which passes its test. Contracts see both.
#[derive(Drop)]
pub struct KeptCuts {
    case: Case,
    cuts: Vec<Cut>,
}

impl Model for KeptCuts {
    ghost use Rattle.std.specs.Prelude.{All};
    ghost use Rattle.cuts.specs.Cuts.{Passes};
    ghost use Rattle.case_edits.specs.Kept.{KeptView};

    ghost Value = { KeptView };

    ghost view = { λ k. record { case_of = k.case; cuts = k.cuts.items } };

    ghost invariant = { λ k. All (Passes k.case) k.cuts.items };
}

/// The case behind the edit, with the cuts that outlast it.
fn behind(
    alloc: Global,
    case: &Case,
    cuts: &[Cut],
    edit: Edit,
) -> Result<(Case, Vec<Cut>), EditFault>
    ensures ok { IfOk result (λ made. IsEditedAs edit case.now cuts.now made.0 made.1.items) }
    ensures err { IfErr result (IsRefusedBy case.now edit) }
{
    judge(case, &edit)?;
    let case = edited(alloc, case, edit)?;
    let cuts = kept_cuts(alloc, &case, cuts)?;
    Ok((case, cuts))
}

impl KeptCuts {
    /// The case without cuts. It takes no memory.
    pub fn create(alloc: Global, case: Case) -> KeptCuts
        ensures { result ≡ record { case_of = case; cuts = [] } }
    {
        KeptCuts {
            case,
            cuts: Vec::new(alloc),
        }
    }

    /// The case.
    pub fn case(&self) -> &Case
        ensures { result.now ≡ self.now.case_of }
    {
        &self.case
    }

    /// The cuts that are kept, the oldest first.
    pub fn cuts(&self) -> &[Cut]
        ensures list { result.now ≡ self.now.cuts }
        ensures passing { All (Passes self.now.case_of) self.now.cuts }
    {
        self.cuts.as_slice()
    }

    /// Keeps cuts that pass, behind the others.
    ///
    /// # Errors
    ///
    /// Want of memory alone, where nothing changes.
    pub fn keep(&mut self, mut cuts: Vec<Cut>) -> Result<(), AllocError>
        requires { All (Passes self.old.case_of) cuts.items }
        ensures ok { OnOk result (self.new ≡ record self.old { cuts = self.old.cuts ++ cuts.items }) }
        ensures err { OnErr result (self.new ≡ self.old) }
    {
        self.cuts.append(&mut cuts)
    }

    /// Makes the edit. The cuts that are kept behind it are those of before, in their order, that
    /// pass the test of the new case, the value of a point cut made anew.
    ///
    /// # Errors
    ///
    /// Why the edit may not be made: NoSuch before Loosens, and Loosens before Limit; and want of
    /// memory, where it may. Then nothing changes.
    pub fn edit(&mut self, alloc: Global, edit: Edit) -> Result<(), EditFault>
        ensures ok { OnOk result (IsEdited edit self.old self.new) }
        ensures err { IfErr result (IsRefusedBy self.old.case_of edit) }
        ensures same { OnErr result (self.new ≡ self.old) }
    {
        let (case, cuts) = behind(alloc, &self.case, self.cuts.as_slice(), edit)?;
        self.case = case;
        self.cuts = cuts;
        Ok(())
    }
}
