//! Resolvents of no-goods.
ghost use Rattle.std.specs.Prelude.{◌≡◌, ◌<◌, ◌+◌, ◌∷◌, ◌++◌, ◌↔◌, ◌||◌, [], Contains, IfOk, IsTrue, OnOk, if◌then◌else◌, length, slice_index_or, take};
ghost use Rattle.nogoods.specs.declared.choice.Choice.{Choice as ChosenSide};
ghost use Rattle.nogoods.specs.Choices.{pairs_ascend};
ghost use Rattle.derivation.specs.HintRuns.{is_assumed};
ghost use Rattle.tree_certs.specs.Derivations.{resolvent};

use nogoods::{Choice, NoGood};
use std::alloc::{AllocError, Global};

fn stands_among(choices: &[Choice], choice: Choice) -> bool
    ensures { IsTrue result ↔ Contains choices.now choice }
{
    choices.contains(&choice)
}

/// Whether a choice is one of these.
pub fn has(choices: &[Choice], choice: Choice) -> bool
    ensures { result ≡ is_assumed choices.now choice }
{
    stands_among(choices, choice)
}

fn is_in_either(u: &[Choice], v: &[Choice], choice: Choice) -> bool
    ensures { result ≡ (is_assumed u.now choice || is_assumed v.now choice) }
{
    has(u, choice) || has(v, choice)
}

fn push_if(made: &mut Vec<Choice>, is_kept: bool, choice: Choice) -> Result<(), AllocError>
    ensures { OnOk result (made.new.items ≡ (if is_kept then made.old.items ++ choice ∷ [] else made.old.items)) }
{
    if is_kept {
        made.push(choice)?;
    }
    Ok(())
}

fn choice_at(choices: &[Choice], at: usize) -> Choice
    requires { at < length choices.now }
    ensures { (d : ChosenSide) → result ≡ slice_index_or choices.now at d }
{
    choices[at]
}

/// Adds the choice of the path at this place, if it is in one of two no-goods.
fn add_choice(
    made: &mut Vec<Choice>,
    path: &[Choice],
    u: &[Choice],
    v: &[Choice],
    at: usize,
) -> Result<(), AllocError>
    requires within { at < length path.now }
    requires so_far { made.old.items ≡ resolvent (take at path.now) u.now v.now }
    ensures { OnOk result (made.new.items ≡ resolvent (take (at + 1) path.now) u.now v.now) }
{
    let choice = choice_at(path, at);
    let is_kept = is_in_either(u, v, choice);
    push_if(made, is_kept, choice)
}

fn list_resolvent(
    alloc: Global,
    path: &[Choice],
    u: &[Choice],
    v: &[Choice],
) -> Result<Vec<Choice>, AllocError>
    ensures { IfOk result (λ made. made.items ≡ resolvent path.now u.now v.now) }
{
    let mut made = Vec::new(alloc);
    for at in 0..path.len() {
        add_choice(&mut made, path, u, v, at)?;
    }
    Ok(made)
}

/// The choices of the path that are in one of two no-goods.
pub fn resolvent(
    alloc: Global,
    path: &NoGood,
    u: &[Choice],
    v: &[Choice],
) -> Result<NoGood, AllocError>
    ensures made { IfOk result (λ made. made ≡ resolvent path.now u.now v.now) }
    ensures ascending { IfOk result (λ made. IsTrue (pairs_ascend made)) }
{
    let list = list_resolvent(alloc, path.choices(), u, v)?;
    match NoGood::from_choices(alloc, list.as_slice())? {
        Some(made) => {
            let _choices = made.choices();
            Ok(made)
        },
        None => unreachable!(),
    }
}
