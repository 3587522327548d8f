//! The no-good lines of a certificate.
ghost use Rattle.std.specs.Prelude.{◌↔◌, ◌<◌, All, IfErr, IfOk, IsTrue, ℕ};
ghost use Rattle.cert_text.specs.Certs.{IsLine};
ghost use Rattle.cert_check.specs.declared.accept.NoWhy.{NoWhy as Reason};
ghost use Rattle.cert_check.specs.Acceptance.{EndsEmpty, NoGoodsFail};
ghost use Rattle.cert_check.specs.Results.{FindsFirst, IsOverPositive, NamesFirst};

use crate::line::{line_fault, no_good};
use crate::{CheckFault, NoWhy};
use cert_text::CertLine;
use lpcc_case::Case;

/// The first line that fails over those before it, counted from 0, and why.
fn first_failing(
    case: &Case,
    value: Option<(i128, i64)>,
    lines: &[CertLine],
) -> Option<(usize, NoWhy)>
    requires positive { IsOverPositive value }
    requires form { All IsLine lines.now }
    ensures { FindsFirst case.now value lines.now result }
{
    for (at, line) in lines.iter().enumerate() {
        if let Some(why) = line_fault(case, value, &lines[..at], line) {
            return Some((at, why));
        }
    }
    None
}

/// Whether there is a last line, without choices.
fn ends_empty(lines: &[CertLine]) -> bool
    ensures { IsTrue result ↔ EndsEmpty lines.now }
{
    match lines.last() {
        Some(line) => no_good(line).choices().is_empty(),
        None => false,
    }
}

/// Judges the no-good lines, which stand from content line `first` on, and the last line behind
/// them, over a value `z / d` that is claimed or none. It takes no memory.
pub(crate) fn judge_lines(
    case: &Case,
    value: Option<(i128, i64)>,
    lines: &[CertLine],
    first: u64,
) -> Result<(), CheckFault>
    requires positive { IsOverPositive value }
    requires form { All IsLine lines.now }
    requires small { first < 10 }
    ensures passed { IfOk result (λ done. (n : ℕ) (why : Reason) → NoGoodsFail case.now value lines.now first n why → ⊥) }
    ensures refused { IfErr result (NamesFirst (NoGoodsFail case.now value lines.now first)) }
{
    if let Some((at, why)) = first_failing(case, value, lines) {
        return Err(CheckFault::No {
            line: first + at as u64,
            why,
        });
    }
    if !ends_empty(lines) {
        return Err(CheckFault::No {
            line: first + lines.len() as u64,
            why: NoWhy::NotEmptyAtEnd,
        });
    }
    Ok(())
}
