//! Where a walk stands, and its steps.
ghost use Rattle.std.specs.Prelude.{◌≡◌, ◌≢◌, ◌≤◌, ◌<◌, ◌^◌, ◌+◌, ◌-◌, pos, length, IfErr, IfOk, IfNone, IfSome, OnOk, OnErr, ℕ};
ghost use Rattle.dict.specs.Dictionaries.{IsCause, entry_at};
ghost use Rattle.dict.specs.Forms.{start_of};
ghost use Rattle.walks.specs.Steps.{IsExchanged, IsFixing, IsPivot, IsSized};
ghost use Rattle.walks.specs.Walks.{IsOnWalk, IsRaised, IsSkipped, place};
ghost use Rattle.lex_simplex.specs.Marks.{AreMarks};
ghost use Rattle.lex_simplex.specs.Rounds.{IsEnd, IsInStage, IsNext, IsRound};

use crate::next::{Next, what_next};
use dict::{Dict, PivotFault};
use lpcc_case::Case;
use nogoods::NoGood;
use std::alloc::{AllocError, Global};
use std::marker::Model;

/// A place of a walk: the dictionary there, and how far the walk has come.
pub struct Walk {
    dict: Dict,
    looked: u32,
    stage: u32,
    pivots: u64,
    steps: u128,
}

/// By a call, which keeps the models of the functions small that own one.
impl Drop for Walk {
    fn drop(self) {
        let Walk {
            dict: _,
            looked: _,
            stage: _,
            pivots: _,
            steps: _,
        } = self;
    }
}

impl Model for Walk {
    ghost use Rattle.std.specs.Prelude.{◌≤◌, ◌+◌, ◌*◌, ◌^◌};
    ghost use Rattle.walks.specs.Walks.{Place, place};

    ghost Value = { Place };

    ghost view = { λ w. place w.looked w.stage w.pivots w.steps w.dict };

    ghost invariant = { λ w. w.steps ≤ w.looked + (w.stage * 2 ^ 64 + w.pivots) };
}

/// Where a walk ends.
#[derive(Clone, Copy)]
pub enum End {
    /// The fixed constraint of this row cannot be exchanged, and its constant is not 0.
    Inconsistent(u32),
    /// No form can enter for the form of the stage, which stands in this row.
    Stuck(u32),
    /// The form at this column enters for the form of this row, and none leaves.
    Open(u32, u32),
    /// The step at this row and column leads to a wide dictionary.
    Wide(u32, u32),
    /// The stage has spent its pivots, and another may follow.
    Spent,
}

/// What became of a round of a stage.
#[derive(Clone, Copy)]
pub enum Round {
    /// A pivot was made.
    Went,
    /// The stage is at its end.
    Raised,
    /// The walk ends here.
    Ended(End),
}

/// Exchanges the form of the row with that of the column. After a fault the dictionary is as before.
fn exchange(case: &Case, dict: &mut Dict, row: u32, col: u32) -> Result<(), PivotFault>
    requires sized { IsSized case.now dict.old }
    requires row { row < length dict.old.rows }
    requires col { col < length dict.old.nonbasic }
    requires entry { entry_at dict.old row col ≢ pos 0 }
    ensures exchanged { OnOk result (IsExchanged case.now row col dict.old dict.new) }
    ensures cause { IfErr result (IsCause row col dict.old) }
    ensures unchanged { OnErr result (dict.new ≡ dict.old) }
{
    dict.pivot(row, col)
}

impl Walk {
    /// The walk of a case at its start.
    pub fn start(alloc: Global, case: &Case) -> Result<Walk, AllocError>
        ensures { IfOk result (λ walk. walk ≡ place 0 0 0 0 (start_of case.now)) }
    {
        Ok(Walk {
            dict: Dict::start(alloc, case)?,
            looked: 0,
            stage: 0,
            pivots: 0,
            steps: 0,
        })
    }

    /// The dictionary where the walk stands.
    pub fn dict(&self) -> &Dict
        ensures { result.now ≡ self.now.at }
    {
        &self.dict
    }

    /// How many constraints were looked at for a fixed one.
    pub fn looked(&self) -> u32
        ensures { result ≡ self.now.looked }
    {
        self.looked
    }

    /// The stage in which the walk stands.
    pub fn stage(&self) -> u32
        ensures { result ≡ self.now.stage }
    {
        self.stage
    }

    /// How many exchanges and pivots were made.
    pub fn steps(&self) -> u128
        ensures { result ≡ self.now.steps }
    {
        self.steps
    }

    /// Goes on from a constraint that is not fixed, or is passed over.
    pub(crate) fn skip(&mut self, case: &Case, tight: &NoGood)
        requires on { IsOnWalk case.now tight.now self.old }
        requires looked { self.old.looked < length case.now.constraints }
        requires skipped { IsSkipped case.now tight.now self.old.looked self.old.at }
        ensures on { IsOnWalk case.now tight.now self.new }
        ensures looked { self.new.looked ≡ self.old.looked + 1 }
        ensures stage { self.new.stage ≡ self.old.stage }
        ensures pivots { self.new.pivots ≡ self.old.pivots }
    {
        let _constraints = case.constraints();
        self.looked += 1;
    }

    /// Exchanges the fixed constraint that is looked at. After a fault the walk stands where it
    /// stood.
    pub(crate) fn fix(
        &mut self,
        case: &Case,
        tight: &NoGood,
        row: u32,
        col: u32,
    ) -> Result<(), PivotFault>
        requires on { IsOnWalk case.now tight.now self.old }
        requires looked { self.old.looked < length case.now.constraints }
        requires fixing { IsFixing case.now tight.now self.old.looked self.old.at row col }
        ensures on { OnOk result (IsOnWalk case.now tight.now self.new) }
        ensures looked { OnOk result (self.new.looked ≡ self.old.looked + 1) }
        ensures stage { OnOk result (self.new.stage ≡ self.old.stage) }
        ensures pivots { OnOk result (self.new.pivots ≡ self.old.pivots) }
        ensures cause { IfErr result (IsCause row col self.old.at) }
        ensures unchanged { OnErr result (self.new ≡ self.old) }
    {
        let _constraints = case.constraints();
        match exchange(case, &mut self.dict, row, col) {
            Ok(_) => {
                self.looked += 1;
                self.steps += 1;
                Ok(())
            },
            Err(fault) => Err(fault),
        }
    }

    /// Goes on to the next stage.
    pub fn raise(&mut self, case: &Case, tight: &NoGood)
        requires on { IsOnWalk case.now tight.now self.old }
        requires looked { self.old.looked ≡ length case.now.constraints }
        requires stage { self.old.stage < length case.now.constraints }
        requires raised { IsRaised case.now tight.now self.old.stage self.old.at }
        ensures on { IsOnWalk case.now tight.now self.new }
        ensures looked { self.new.looked ≡ self.old.looked }
        ensures stage { self.new.stage ≡ self.old.stage + 1 }
        ensures pivots { self.new.pivots ≡ 0 }
    {
        let _constraints = case.constraints();
        self.stage += 1;
        self.pivots = 0;
    }

    /// Makes the next pivot of the stage. After a fault the walk stands where it stood.
    fn pivot(&mut self, case: &Case, tight: &NoGood, row: u32, col: u32) -> Result<(), PivotFault>
        requires on { IsOnWalk case.now tight.now self.old }
        requires stage { IsInStage case.now self.old }
        requires pivot { IsPivot case.now tight.now self.old.stage self.old.at row col }
        requires room { self.old.pivots < 2 ^ 64 - 1 }
        ensures on { OnOk result (IsOnWalk case.now tight.now self.new) }
        ensures looked { OnOk result (self.new.looked ≡ self.old.looked) }
        ensures stage { OnOk result (self.new.stage ≡ self.old.stage) }
        ensures pivots { OnOk result (self.new.pivots ≡ self.old.pivots + 1) }
        ensures cause { IfErr result (IsCause row col self.old.at) }
        ensures unchanged { OnErr result (self.new ≡ self.old) }
    {
        let _constraints = case.constraints();
        match exchange(case, &mut self.dict, row, col) {
            Ok(_) => {
                self.pivots += 1;
                self.steps += 1;
                Ok(())
            },
            Err(fault) => Err(fault),
        }
    }

    /// Makes this pivot, unless the budget is spent.
    fn try_pivot(
        &mut self,
        case: &Case,
        tight: &NoGood,
        row: u32,
        col: u32,
        budget: u64,
    ) -> Result<Round, AllocError>
        requires on { IsOnWalk case.now tight.now self.old }
        requires stage { IsInStage case.now self.old }
        requires pivot { IsPivot case.now tight.now self.old.stage self.old.at row col }
        requires few { self.old.pivots ≤ budget }
        ensures on { OnOk result (IsOnWalk case.now tight.now self.new) }
        ensures looked { OnOk result (self.new.looked ≡ self.old.looked) }
        ensures stage { OnOk result (self.new.stage ≡ self.old.stage) }
        ensures round { IfOk result (IsRound case.now tight.now budget self.old self.new) }
    {
        if self.pivots == budget {
            return Ok(Round::Ended(End::Spent));
        }
        match self.pivot(case, tight, row, col) {
            Ok(_) => Ok(Round::Went),
            Err(PivotFault::Wide(_)) => Ok(Round::Ended(End::Wide(row, col))),
            Err(PivotFault::NoMemory(fault)) => Err(fault),
        }
    }

    /// What comes next where the walk stands.
    fn next(&self, case: &Case, tight: &NoGood, fixed: &[bool]) -> Next
        requires marks { AreMarks case.now tight.now fixed.now }
        requires on { IsOnWalk case.now tight.now self.now }
        requires stage { self.now.stage ≤ length case.now.constraints }
        ensures { IsNext case.now tight.now self.now.stage self.now.at result }
    {
        let _constraints = case.constraints();
        what_next(case, tight, fixed, &self.dict, self.stage)
    }

    /// A round of the stage in which the walk stands.
    pub fn round(
        &mut self,
        case: &Case,
        tight: &NoGood,
        fixed: &[bool],
        budget: u64,
    ) -> Result<Round, AllocError>
        requires marks { AreMarks case.now tight.now fixed.now }
        requires on { IsOnWalk case.now tight.now self.old }
        requires stage { IsInStage case.now self.old }
        requires few { self.old.pivots ≤ budget }
        ensures on { OnOk result (IsOnWalk case.now tight.now self.new) }
        ensures looked { OnOk result (self.new.looked ≡ self.old.looked) }
        ensures stage { OnOk result (self.new.stage ≡ self.old.stage) }
        ensures round { IfOk result (IsRound case.now tight.now budget self.old self.new) }
    {
        match self.next(case, tight, fixed) {
            Next::Pivot(row, col) => self.try_pivot(case, tight, row, col, budget),
            Next::Raised => Ok(Round::Raised),
            Next::Stuck(row) => Ok(Round::Ended(End::Stuck(row))),
            Next::Open(row, col) => Ok(Round::Ended(End::Open(row, col))),
        }
    }
}
