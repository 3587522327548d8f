//! The test of one no-good line.
ghost use Rattle.std.specs.Prelude.{◌≡◌, ◌↔◌, ◌≤ℤ◌, All, IsTrue, map, pos};
ghost use Rattle.derivation.specs.HintRuns.{NamesBelow};
ghost use Rattle.cert_text.specs.Certs.{IsLine, no_good_of};
ghost use Rattle.cert_check.specs.Acceptance.{HintsPass, IsBoundFor, NoGoodFails, PointCutFails};
ghost use Rattle.cert_check.specs.Results.{Finds, IsOverPositive};

use crate::NoWhy;
use cert_text::CertLine;
use cuts::{check_ray, point_bound};
use derivation::{NoGoods, closes};
use lp_nums::compare;
use lpcc_case::{Case, MOST_PAIRS, names_pairs};
use nogoods::{Choice, NoGood};
use std::cmp::Ordering;

/// The no-good of a line.
pub(crate) fn no_good(line: &CertLine) -> &NoGood
    ensures { result.now ≡ no_good_of line.now }
{
    match line {
        CertLine::Ray { ng, .. } | CertLine::Point { ng, .. } | CertLine::Derived { ng, .. } => ng,
    }
}

/// The no-goods of the lines before one.
#[derive(Clone, Copy)]
struct Before<'a> {
    lines: &'a [CertLine],
}

impl NoGoods for Before<'_> {
    ghost list = { λ b. map no_good_of b.lines.now };

    fn count(&self) -> usize {
        self.lines.len()
    }

    fn choices(&self, at: usize) -> &[Choice] {
        no_good(&self.lines[at]).choices()
    }
}

/// Whether the choices name pairs and the hint run over the lines before closes.
fn hints_pass(case: &Case, before: &[CertLine], ng: &NoGood, hints: &[u64]) -> bool
    requires few_pairs { NamesBelow MOST_PAIRS ng.now }
    requires form_before { All IsLine before.now }
    ensures { IsTrue result ↔ HintsPass case.now (map no_good_of before.now) ng.now hints.now }
{
    names_pairs(case, ng.choices()) && closes(&Before { lines: before }, ng, hints)
}

/// Whether the bound `v / e` is at least the value `z / d`.
fn is_bound_for(value: (i128, i64), v: i128, e: i64) -> bool
    requires first { pos 1 ≤ℤ e }
    requires second { pos 1 ≤ℤ value.1 }
    ensures { IsTrue result ↔ IsBoundFor value e v }
{
    match compare(v, e, value.0, value.1) {
        Ordering::Less => false,
        Ordering::Equal | Ordering::Greater => true,
    }
}

/// Why a point cut fails over a value `z / d` that is claimed or none.
pub fn point_cut_fault(
    case: &Case,
    value: Option<(i128, i64)>,
    ng: &NoGood,
    mult: &[(u32, i64)],
    e: i64,
) -> Option<NoWhy>
    requires positive { IsOverPositive value }
    requires divisor { pos 1 ≤ℤ e }
    ensures { Finds (PointCutFails case.now value ng.now e mult.now) result }
{
    let Some(value) = value else {
        return Some(NoWhy::WrongKind);
    };
    match point_bound(case, ng, mult, e) {
        Err(_) => Some(NoWhy::CutFails),
        Ok(v) if is_bound_for(value, v, e) => None,
        Ok(_) => Some(NoWhy::BoundLow),
    }
}

/// Why the line fails over the lines before it and a value `z / d` that is claimed or none.
pub(crate) fn line_fault(
    case: &Case,
    value: Option<(i128, i64)>,
    before: &[CertLine],
    line: &CertLine,
) -> Option<NoWhy>
    requires positive { IsOverPositive value }
    requires form { IsLine line.now }
    requires form_before { All IsLine before.now }
    ensures { Finds (NoGoodFails case.now value (map no_good_of before.now) line.now) result }
{
    match line {
        CertLine::Ray { ng, mult } => match check_ray(case, ng, mult.as_slice()) {
            Ok(()) => None,
            Err(_) => Some(NoWhy::CutFails),
        },
        CertLine::Point { ng, e, mult } => point_cut_fault(case, value, ng, mult.as_slice(), *e),
        CertLine::Derived { ng, hints } if hints_pass(case, before, ng, hints.as_slice()) => None,
        CertLine::Derived { .. } => Some(NoWhy::HintFails),
    }
}
