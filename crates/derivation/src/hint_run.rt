//! Unit propagation over a list of hints.
ghost use Rattle.std.specs.Prelude.{◌≡◌, ◌<◌, All, List, [], length, slice_index_or};
ghost use Rattle.nogoods.specs.declared.choice.Choice.{Choice as ChosenSide};
ghost use Rattle.nogoods.specs.Choices.{other};
ghost use Rattle.derivation.specs.HintRuns.{NamesBelow, closes, unassumed};
ghost use Rattle.derivation.specs.Flags.{IsLeft, Shows};

use crate::assumed::Assumed;
use lpcc_case::MOST_PAIRS;
use nogoods::{Choice, NoGood, Side};

/// No-goods in a row, counted from 0.
pub trait NoGoods {
    ghost list: { Self → List (List ChosenSide) };

    /// How many there are.
    fn count(&self) -> usize
        ensures { result ≡ length (list self.now) };

    /// The choices of one of them.
    fn choices(&self, at: usize) -> &[Choice]
        requires { at < length (list self.now) }
        ensures { result.now ≡ slice_index_or (list self.now) at [] };
}

fn other_choice(choice: Choice) -> Choice
    ensures { result ≡ other choice }
{
    let side = match choice.side {
        Side::A => Side::B,
        Side::B => Side::A,
    };
    Choice {
        pair: choice.pair,
        side,
    }
}

/// The choices of a no-good that are not assumed, as far as a run asks.
enum Left {
    None,
    One(Choice),
    More,
}

fn left_of(assumed: &Assumed, choices: &[Choice]) -> Left
    requires { NamesBelow MOST_PAIRS choices.now }
    ensures { (list : List ChosenSide) → Shows assumed.now list → IsLeft result (unassumed list choices.now) }
{
    let mut found = None;
    for choice in choices {
        if assumed.has(*choice) {
            continue;
        }
        if found.is_some() {
            return Left::More;
        }
        found = Some(*choice);
    }
    match found {
        None => Left::None,
        Some(choice) => Left::One(choice),
    }
}

/// Whether the unit propagation of the no-good closes over the hints, numbers of earlier no-goods
/// counted from 0. It assumes the choices of the no-good. A hint whose choices are assumed but for
/// one makes the other side of that one assumed, which may not be assumed before; a hint whose
/// choices are all assumed closes the run, and is the last. It takes no memory.
pub fn closes<N: NoGoods>(earlier: &N, ng: &NoGood, hints: &[u64]) -> bool
    requires few_pairs { NamesBelow MOST_PAIRS ng.now }
    requires few_earlier_pairs { All (NamesBelow MOST_PAIRS) (N.list earlier.now) }
    ensures { result ≡ closes (N.list earlier.now) ng.now hints.now }
{
    let mut assumed = Assumed::of(ng.choices());
    for (at, hint) in hints.iter().enumerate() {
        let hint = *hint as usize;
        if hint >= earlier.count() {
            return false;
        }
        match left_of(&assumed, earlier.choices(hint)) {
            Left::None => return at + 1 == hints.len(),
            Left::More => return false,
            Left::One(choice) => {
                let implied = other_choice(choice);
                if assumed.has(implied) {
                    return false;
                }
                assumed.add(implied);
            }
        }
    }
    false
}
