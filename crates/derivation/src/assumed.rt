//! The choices that are assumed in a run of unit propagation.
ghost use Rattle.std.specs.Prelude.{◌≡◌, ◌<◌, ◌||◌, []};
ghost use Rattle.nogoods.specs.declared.choice.Choice.{Choice as ChosenSide};
ghost use Rattle.nogoods.specs.Choices.{same_choice};
ghost use Rattle.derivation.specs.HintRuns.{NamesBelow};
ghost use Rattle.derivation.specs.Flags.{flag_of, Shows};

use lpcc_case::MOST_PAIRS;
use nogoods::{Choice, Side};

/// A flag for each side of as many pairs as a case may have: whether the choice is assumed.
#[derive(Drop)]
pub(crate) struct Assumed {
    a: [bool; MOST_PAIRS],
    b: [bool; MOST_PAIRS],
}

impl Assumed {
    /// No choice.
    fn none() -> Assumed
        ensures { Shows result [] }
    {
        Assumed {
            a: [false; MOST_PAIRS],
            b: [false; MOST_PAIRS],
        }
    }

    /// These choices.
    pub(crate) fn of(choices: &[Choice]) -> Assumed
        requires { NamesBelow MOST_PAIRS choices.now }
        ensures { Shows result choices.now }
    {
        let mut assumed = Assumed::none();
        for choice in choices {
            assumed.add(*choice);
        }
        assumed
    }

    /// Whether the choice is assumed.
    pub(crate) fn has(&self, choice: Choice) -> bool
        requires { choice.pair < MOST_PAIRS }
        ensures { result ≡ flag_of self.now choice }
    {
        match choice.side {
            Side::A => self.a[choice.pair as usize],
            Side::B => self.b[choice.pair as usize],
        }
    }

    /// Assumes the choice too.
    pub(crate) fn add(&mut self, choice: Choice)
        requires { choice.pair < MOST_PAIRS }
        ensures { (c : ChosenSide) → flag_of self.new c ≡ (same_choice choice c || flag_of self.old c) }
    {
        match choice.side {
            Side::A => self.a[choice.pair as usize] = true,
            Side::B => self.b[choice.pair as usize] = true,
        }
    }
}
