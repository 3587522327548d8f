//! Looking up in problems.
ghost use Rattle.std.specs.Prelude.{◌≡◌};
ghost use Rattle.std.specs.List.{list_all};
ghost use Rattle.front_text.specs.Problems.{coefficient_at};
ghost use Rattle.kkt_front.specs.DeckTexts.{has_zero, is_zero};

use front_text::Line;

/// The coefficient of a variable.
pub fn coefficient_at(terms: &[(u32, i64)], variable: u32) -> i64
    ensures { result ≡ coefficient_at terms.now variable }
{
    for term in terms {
        if term.0 == variable {
            return term.1;
        }
    }
    0
}

/// Whether all numbers are 0.
pub fn are_zero(numbers: &[i64]) -> bool
    ensures { result ≡ list_all is_zero numbers.now }
{
    numbers.iter().all(|number| *number == 0)
}

/// Whether the right-hand sides of all lines are 0.
pub fn have_zero(lines: &[Line]) -> bool
    ensures { result ≡ list_all has_zero lines.now }
{
    lines.iter().all(|line| line.rhs == 0)
}
