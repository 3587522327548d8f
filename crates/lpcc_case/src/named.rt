//! Whether choices name pairs of a case.
ghost use Rattle.std.specs.Prelude.{◌↔◌, IsTrue};
ghost use Rattle.lpcc_case.specs.Pieces.{NamesPairs};

use crate::Case;
use nogoods::Choice;

/// Whether each choice names a pair of the case. It takes no memory.
pub fn names_pairs(case: &Case, choices: &[Choice]) -> bool
    ensures { IsTrue result ↔ NamesPairs case.now choices.now }
{
    let count = case.pairs().len();
    choices.iter().all(|choice| (choice.pair as usize) < count)
}
