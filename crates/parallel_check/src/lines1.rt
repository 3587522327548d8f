//! The no-good lines of a certificate of form 1, of which cuts may have been tested before.
ghost use Rattle.std.specs.Prelude.{◌≡◌, ◌<◌, All, IfErr, IfOk, ℕ, true};
ghost use Rattle.cert_text.specs.Certs.{IsLine, no_good_of};
ghost use Rattle.cert_check.specs.declared.accept.NoWhy.{NoWhy as Reason};
ghost use Rattle.cert_check.specs.Acceptance.{NoGoodFails, NoGoodsFail};
ghost use Rattle.cert_check.specs.Results.{Finds, IsOverPositive, NamesFirst};
ghost use Rattle.cert2_check.specs.Results2.{AreGood};
ghost use Rattle.parallel_check.specs.Testing.{AreTested1, CutPasses1, FindsFirst1};

use cert_check::line::point_cut_fault;
use cert_check::{CheckFault, NoWhy};
use cert_text::CertLine;
use cert2_check::earlier::{Earlier, is_marked};
use cert2_check::line2::whole_ray_fault;
use cert2_check::lines2::Found;
use derivation::closes;
use lpcc_case::{Case, names_pairs};
use nogoods::NoGood;
use std::alloc::{AllocError, Global};

// The no-good of a line.
fn no_good(line: &CertLine) -> &NoGood
    ensures { result.now ≡ no_good_of line.now }
{
    match line {
        CertLine::Ray { ng, .. } | CertLine::Point { ng, .. } | CertLine::Derived { ng, .. } => ng,
    }
}

// Why a line fails over the no-goods of the lines before it.
fn fault_of(
    case: &Case,
    value: Option<(i128, i64)>,
    earlier: &Earlier,
    line: &CertLine,
) -> Option<NoWhy>
    requires positive { IsOverPositive value }
    requires good { AreGood earlier.now }
    requires form { IsLine line.now }
    ensures { Finds (NoGoodFails case.now value earlier.now.no_goods line.now) result }
{
    match line {
        CertLine::Ray { ng, mult } => whole_ray_fault(case, ng, mult.as_slice()),
        CertLine::Point { ng, e, mult } => point_cut_fault(case, value, ng, mult.as_slice(), *e),
        CertLine::Derived { ng, hints }
            if names_pairs(case, ng.choices()) && closes(earlier, ng, hints.as_slice()) => { None }
        CertLine::Derived { .. } => Some(NoWhy::HintFails),
    }
}

// The same of a line that is known to be a cut that passes, where it is marked so.
fn fault_known(
    case: &Case,
    value: Option<(i128, i64)>,
    earlier: &Earlier,
    line: &CertLine,
    tested: bool,
) -> Option<NoWhy>
    requires positive { IsOverPositive value }
    requires good { AreGood earlier.now }
    requires form { IsLine line.now }
    requires tested { tested ≡ true → CutPasses1 case.now value line.now }
    ensures { Finds (NoGoodFails case.now value earlier.now.no_goods line.now) result }
{
    if tested {
        return None;
    }
    fault_of(case, value, earlier, line)
}

fn first_failing(
    alloc: Global,
    case: &Case,
    value: Option<(i128, i64)>,
    lines: &[CertLine],
    tested: &[bool],
) -> Result<Found, AllocError>
    requires positive { IsOverPositive value }
    requires form { All IsLine lines.now }
    requires tested { AreTested1 case.now value lines.now tested.now }
    ensures { IfOk result (FindsFirst1 case.now value lines.now) }
{
    let mut earlier = Earlier::new(alloc);
    for (at, line) in lines.iter().enumerate() {
        let known = is_marked(tested, at as u64);
        if let Some(why) = fault_known(case, value, &earlier, line, known) {
            return Ok(Found::Fails(at, why));
        }
        earlier.take_no_good(no_good(line))?;
    }
    Ok(Found::Passes(earlier.ends_empty()))
}

/// Judges the no-good lines, which stand from content line `first` on, and the last line behind them,
/// over a value `z / d` that is claimed or none. Cuts that are marked were tested before.
pub fn judge_lines1(
    alloc: Global,
    case: &Case,
    value: Option<(i128, i64)>,
    lines: &[CertLine],
    tested: &[bool],
    first: u64,
) -> Result<(), CheckFault>
    requires positive { IsOverPositive value }
    requires form { All IsLine lines.now }
    requires tested { AreTested1 case.now value lines.now tested.now }
    requires small { first < 10 }
    ensures passed { IfOk result (λ done. (n : ℕ) (why : Reason) → NoGoodsFail case.now value lines.now first n why → ⊥) }
    ensures refused { IfErr result (NamesFirst (NoGoodsFail case.now value lines.now first)) }
{
    match first_failing(alloc, case, value, lines, tested)? {
        Found::Fails(at, why) => Err(CheckFault::No {
            line: first + at as u64,
            why,
        }),
        Found::Passes(true) => Ok(()),
        Found::Passes(false) => Err(CheckFault::No {
            line: first + lines.len() as u64,
            why: NoWhy::NotEmptyAtEnd,
        }),
    }
}
