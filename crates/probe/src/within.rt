//! Whether choices are among others.
ghost use Rattle.std.specs.Prelude.{◌≡◌, ◌↔◌, IsTrue, All, Contains};

use nogoods::{Choice, NoGood};

fn stands_among(choice: Choice, tight: &[Choice]) -> bool
    ensures { IsTrue result ↔ Contains tight.now choice }
{
    tight.contains(&choice)
}

fn are_among(choices: &[Choice], tight: &[Choice]) -> bool
    ensures { IsTrue result → All (Contains tight.now) choices.now }
{
    for choice in choices {
        if !stands_among(*choice, tight) {
            return false;
        }
    }
    true
}

/// Whether the choices of a no-good are among those of another.
pub fn is_within(ng: &NoGood, tight: &NoGood) -> bool
    ensures { IsTrue result → All (Contains tight.now) ng.now }
{
    are_among(ng.choices(), tight.choices())
}
