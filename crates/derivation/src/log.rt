//! The log of a derivation.
ghost use Rattle.std.specs.Prelude.{◌≡◌, ◌∷◌, ◌++◌, [], All, OnErr, OnOk, true};
ghost use Rattle.derivation.specs.declared.step.Step.TheVariants as step;
ghost use Rattle.derivation.specs.HintRuns.{NamesBelow, closes};
ghost use Rattle.derivation.specs.Logs.{IsLog, no_goods};

use crate::{NoGoods, Step, closes};
use lp_base::Sequence;
use lpcc_case::MOST_PAIRS;
use nogoods::{Choice, NoGood};
use std::alloc::{AllocError, Global};
use std::marker::Model;

/// Steps in their order, in which each derived one follows from those before it. Contracts see
/// the list of the steps.
#[derive(Drop)]
pub struct Log {
    held: Sequence<Step>,
}

impl Model for Log {
    ghost use Rattle.std.specs.Prelude.{List};
    ghost use Rattle.derivation.specs.declared.step.Step.{Step};

    ghost Value = { List Step };

    ghost use Rattle.derivation.specs.Logs.{IsLog};

    ghost view = { λ l. l.held };

    ghost invariant = { λ l. IsLog l.held };
}

impl Log {
    /// The log without steps. It takes no memory.
    pub fn create(alloc: Global) -> Log
        ensures { result ≡ [] }
    {
        Log {
            held: Sequence::new(alloc),
        }
    }

    /// The steps in their order.
    pub fn steps(&self) -> &[Step]
        ensures list { result.now ≡ self.now }
        ensures kept { IsLog self.now }
    {
        self.held.as_slice()
    }

    /// Adds a no-good that is known. Without memory nothing changes.
    pub fn start(&mut self, ng: NoGood) -> Result<(), AllocError>
        ensures ok { OnOk result (self.new ≡ self.old ++ step.Start ng ∷ []) }
        ensures err { OnErr result (self.new ≡ self.old) }
    {
        self.held.push(Step::Start(ng))?;
        Ok(())
    }

    /// Adds a no-good that follows from the steps so far by its hints, their numbers counted
    /// from 0. Without memory nothing changes.
    pub fn derive(&mut self, ng: NoGood, hints: Sequence<u64>) -> Result<(), AllocError>
        requires { closes (no_goods self.old) ng hints ≡ true }
        ensures ok { OnOk result (self.new ≡ self.old ++ step.Derived ng hints ∷ []) }
        ensures err { OnErr result (self.new ≡ self.old) }
    {
        self.held.push(Step::Derived(ng, hints))?;
        Ok(())
    }
}

impl NoGoods for Log {
    ghost list = { no_goods };

    fn count(&self) -> usize {
        self.steps().len()
    }

    fn choices(&self, at: usize) -> &[Choice] {
        match &self.steps()[at] {
            Step::Start(ng) => ng.choices(),
            Step::Derived(ng, _) => ng.choices(),
        }
    }
}

/// Whether the no-good follows from the steps of the log by these hints. It takes no memory.
pub fn follows(log: &Log, ng: &NoGood, hints: &[u64]) -> bool
    requires few_pairs { NamesBelow MOST_PAIRS ng.now }
    requires few_pairs_before { All (NamesBelow MOST_PAIRS) (no_goods log.now) }
    ensures { result ≡ closes (no_goods log.now) ng.now hints.now }
{
    closes(log, ng, hints)
}
