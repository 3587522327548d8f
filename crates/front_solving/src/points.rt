//! Points in texts.
ghost use Rattle.std.specs.Prelude.{◌≡◌, ◌<◌, ◌-◌, ◌^◌, ◌++◌, IfOk, OnOk, length, string_bytes};
ghost use Rattle.deck_gen.specs.Generator.{joined};
ghost use Rattle.front_solving.specs.Texts.{number_text, point_text};

use std::alloc::{AllocError, Global};

fn push_number(
    text: &mut String,
    alloc: Global,
    numbers: &[i64],
    j: usize,
) -> Result<(), AllocError>
    requires { j < length numbers.now }
    ensures { OnOk result (string_bytes text.new ≡ string_bytes text.old ++ number_text numbers.now j) }
{
    let value = numbers[j];
    if value == 0 {
        return Ok(());
    }
    text.push_str(format!(in alloc; " {} {value}", j + 1)?.as_str())
}

fn push_numbers(text: &mut String, alloc: Global, numbers: &[i64]) -> Result<(), AllocError>
    ensures { OnOk result (string_bytes text.new ≡ string_bytes text.old ++ joined (number_text numbers.now) (length numbers.now)) }
{
    for j in 0..numbers.len() {
        push_number(text, alloc, numbers, j)?;
    }
    Ok(())
}

/// The denominator, a colon, and the numbers that are not 0, each behind the number of its variable,
/// from 1.
pub fn point_text(alloc: Global, d: i64, numbers: &[i64]) -> Result<String, AllocError>
    ensures { IfOk result (λ text. string_bytes text ≡ point_text d numbers.now) }
{
    let mut text = format!(in alloc; "{d} :")?;
    push_numbers(&mut text, alloc, numbers)?;
    Ok(text)
}
