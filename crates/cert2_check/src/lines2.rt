//! The lines of a certificate of form 2 behind those of the kind, the point and the value.
ghost use Rattle.std.specs.Prelude.{◌<◌, All, IfErr, IfOk, ℕ};
ghost use Rattle.cert_check.specs.declared.accept.NoWhy.{NoWhy as Reason};
ghost use Rattle.cert_check.specs.Results.{IsOverPositive, NamesFirst};
ghost use Rattle.cert2_text.specs.Certs2.{IsLine2};
ghost use Rattle.cert2_check.specs.Acceptance2.{Lines2Fail};
ghost use Rattle.cert2_check.specs.Results2.{AreTested, FindsFirst2};

use crate::earlier::{Earlier, is_marked};
use crate::line2::line_fault_known;
use cert_check::{CheckFault, NoWhy};
use cert2_text::Cert2Line;
use lpcc_case::Case;
use std::alloc::{AllocError, Global};

/// What is found of lines: the first that fails, counted from 0, and why; or whether the last no-good
/// is empty.
pub enum Found {
    Fails(usize, NoWhy),
    Passes(bool),
}

fn first_failing(
    alloc: Global,
    case: &Case,
    value: Option<(i128, i64)>,
    lines: &[Cert2Line],
    tested: &[bool],
) -> Result<Found, AllocError>
    requires positive { IsOverPositive value }
    requires form { All IsLine2 lines.now }
    requires tested { AreTested case.now value lines.now tested.now }
    ensures { IfOk result (FindsFirst2 case.now value lines.now) }
{
    let mut earlier = Earlier::new(alloc);
    for (at, line) in lines.iter().enumerate() {
        let known = is_marked(tested, at as u64);
        if let Some(why) = line_fault_known(alloc, case, value, &earlier, line, known)? {
            return Ok(Found::Fails(at, why));
        }
        earlier.take(line)?;
    }
    Ok(Found::Passes(earlier.ends_empty()))
}

/// Judges the lines, which stand from content line `first` on, and the last line behind them, over a
/// value `z / d` that is claimed or none. Cuts that are marked were tested before.
pub fn judge_lines(
    alloc: Global,
    case: &Case,
    value: Option<(i128, i64)>,
    lines: &[Cert2Line],
    tested: &[bool],
    first: u64,
) -> Result<(), CheckFault>
    requires positive { IsOverPositive value }
    requires form { All IsLine2 lines.now }
    requires tested { AreTested case.now value lines.now tested.now }
    requires small { first < 10 }
    ensures passed { IfOk result (λ done. (n : ℕ) (why : Reason) → Lines2Fail case.now value lines.now first n why → ⊥) }
    ensures refused { IfErr result (NamesFirst (Lines2Fail case.now value lines.now first)) }
{
    match first_failing(alloc, case, value, lines, tested)? {
        Found::Fails(at, why) => Err(CheckFault::No {
            line: first + at as u64,
            why,
        }),
        Found::Passes(true) => Ok(()),
        Found::Passes(false) => Err(CheckFault::No {
            line: first + lines.len() as u64,
            why: NoWhy::NotEmptyAtEnd,
        }),
    }
}
