//! Rows as constraints.
ghost use Rattle.std.specs.Prelude.{◌≡◌, ◌≢◌, ◌<◌, ◌≤◌, ◌++◌, ◌∷◌, [], ℤ, All, IfErr, IfSome, OnOk, None, Some, true, false, if◌then◌else◌, unsigned_abs};
ghost use Rattle.std.specs.Option.{option_map};
ghost use Rattle.lp_base.specs.declared.limits.TheConstants.{LARGEST_OF_CASE};
ghost use Rattle.decks.specs.Decks.{IsDeckNumber};
ghost use Rattle.decks.specs.declared.deck.Letter.TheVariants.{N, E, L, G};
ghost use Rattle.deck_case.specs.CaseParts.{between_ends, constraints_of_row, equal_to, is_equation, numbers_of};
ghost use Rattle.deck_case.specs.Steps.{AreEnds, IsClearedBy, IsFirstOf, IsNarrowTerm, ends_of, far_end, narrow};
ghost use Rattle.deck_case.specs.Multipliers.{times};
ghost use Rattle.deck_case.specs.Sides.{reaches_down, sides};
ghost use Rattle.deck_case.specs.Wide.{wide_row};

use crate::CaseFault;
use crate::entries::{Terms, terms};
use crate::numbers::{far_end, multiplier, whole};
use crate::relations::{equal_to, push_lower, push_upper};
use decks::{Entry, Letter, Row};
use lp_nums::Frac;
use lpcc_case::Constraint;
use std::alloc::{AllocError, Global};

/// The two ends of a row, none where it has no end.
#[derive(Clone, Copy)]
pub struct Ends {
    pub lower: Option<i64>,
    pub upper: Option<i64>,
}

/// Whether a row's range reaches down from its right-hand side, and else up.
fn reaches_down(letter: Letter, range: Frac) -> bool
    ensures { result ≡ reaches_down letter range }
{
    match letter {
        Letter::L => true,
        Letter::E => range.num() < 0,
        Letter::N | Letter::G => false,
    }
}

/// The ends of a row with a range, none where the one that the range gives is too wide.
fn ends_with_range(letter: Letter, near: i64, multiplier: u64, range: Frac) -> Option<Ends>
    requires near { unsigned_abs near ≤ LARGEST_OF_CASE }
    requires positive { 0 < multiplier }
    requires narrow { multiplier ≤ LARGEST_OF_CASE }
    requires clears { IsClearedBy multiplier range }
    ensures { result ≡ (if reaches_down letter range
        then option_map (λ far. ends_of (Some far) (Some near)) (narrow (far_end near true (times multiplier range)))
        else option_map (λ far. ends_of (Some near) (Some far)) (narrow (far_end near false (times multiplier range)))) }
{
    if reaches_down(letter, range) {
        let far = far_end(near, multiplier, range, true)?;
        Some(Ends {
            lower: Some(far),
            upper: Some(near),
        })
    } else {
        let far = far_end(near, multiplier, range, false)?;
        Some(Ends {
            lower: Some(near),
            upper: Some(far),
        })
    }
}

/// The ends of a row without a range.
fn ends_without_range(letter: Letter, near: i64) -> Ends
    requires { letter ≢ N }
    ensures equal { letter ≡ E → result ≡ ends_of (Some near) (Some near) }
    ensures at_most { letter ≡ L → result ≡ ends_of None (Some near) }
    ensures at_least { letter ≡ G → result ≡ ends_of (Some near) None }
{
    match letter {
        Letter::E | Letter::N => Ends {
            lower: Some(near),
            upper: Some(near),
        },
        Letter::L => Ends {
            lower: None,
            upper: Some(near),
        },
        Letter::G => Ends {
            lower: Some(near),
            upper: None,
        },
    }
}

/// The ends of a row times its multiplier, none where one of them is past 2^52 in size.
fn ends_of_row(multiplier: u64, row: &Row) -> Option<Ends>
    requires letter { row.now.letter ≢ N }
    requires positive { 0 < multiplier }
    requires narrow { multiplier ≤ LARGEST_OF_CASE }
    requires clears { IsClearedBy multiplier row.now.rhs }
    requires range { IfSome row.now.range (IsClearedBy multiplier) }
    ensures { AreEnds multiplier (sides row.now.letter row.now.rhs row.now.range) result }
{
    let near = whole(multiplier, row.rhs)?;
    match row.range {
        None => Some(ends_without_range(row.letter, near)),
        Some(range) => ends_with_range(row.letter, near, multiplier, range),
    }
}

/// Whether a row asks for equality.
fn is_equation(row: &Row) -> bool
    ensures { result ≡ is_equation row.now.letter row.now.range }
{
    row.letter == Letter::E && row.range.is_none()
}

/// Adds the constraints of a row with these terms and ends.
fn push_ends(
    alloc: Global,
    equation: bool,
    terms: Terms,
    ends: Ends,
    made: &mut Vec<Constraint>,
) -> Result<(), AllocError>
    requires terms { All IsNarrowTerm terms }
    requires end { IfSome ends.upper (λ b. unsigned_abs b ≤ LARGEST_OF_CASE) }
    ensures equation { equation ≡ true → (b : ℤ) → ends.lower ≡ Some b
        → OnOk result (made.new.items ≡ made.old.items ++ equal_to terms b ∷ []) }
    ensures ends { equation ≡ false
        → OnOk result (made.new.items ≡ made.old.items ++ between_ends terms ends.lower ends.upper) }
{
    if let (true, Some(end)) = (equation, ends.lower) {
        made.push(equal_to(terms, end))?;
        return Ok(());
    }
    push_lower(alloc, &terms, ends.lower, made)?;
    push_upper(alloc, &terms, ends.upper, made)
}

/// Adds the constraints of a row that is not the objective, from its entries.
pub fn push_row(
    alloc: Global,
    row: &Row,
    entries: &[Entry],
    made: &mut Vec<Constraint>,
) -> Result<(), CaseFault>
    requires letter { row.now.letter ≢ N }
    requires numbers { All IsDeckNumber (numbers_of row.now.rhs row.now.range entries.now) }
    ensures ok { OnOk result (made.new.items
        ≡ made.old.items ++ constraints_of_row entries.now row.now) }
    ensures narrow { OnOk result (wide_row entries.now row.now ≡ []) }
    ensures err { IfErr result (IsFirstOf (wide_row entries.now row.now)) }
{
    let line = row.line;
    let Some(factor) = multiplier(row.rhs, row.range, entries) else {
        return Err(CaseFault::RowWide { line });
    };
    let terms = terms(alloc, factor, entries, line)?;
    let Some(ends) = ends_of_row(factor, row) else {
        return Err(CaseFault::RowWide { line });
    };
    push_ends(alloc, is_equation(row), terms, ends, made)?;
    Ok(())
}
