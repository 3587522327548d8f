//! How solving a relaxation ends.
ghost use Rattle.std.specs.Prelude.{◌≡◌, ◌++◌, ◌∷◌, [], IfOk, string_bytes};
ghost use Rattle.report.specs.Relaxations.{status_of, text_of, verdict_line};
ghost use Rattle.report.specs.declared.relaxation.Relaxation.TheVariants.{Spent, Wide};

use crate::forms::{form_text, push_forms};
use cuts::{SpentAt, WideAt};
use lpcc_case::Verdict;
use std::alloc::{AllocError, Global};

/// How solving a case without its pairs ends.
#[derive(Drop)]
pub enum Relaxation {
    /// With a verdict on the case without its pairs.
    Solved(Verdict),
    /// Before a dictionary with a number that is not narrow.
    Wide(WideAt),
    /// With the pivots of a stage spent.
    Spent(SpentAt),
}

// The text of a verdict.
fn verdict_text(alloc: Global, verdict: Verdict) -> Result<String, AllocError>
    ensures { IfOk result (λ text. string_bytes text ≡ verdict_line verdict ++ 10 ∷ []) }
{
    match verdict {
        Verdict::Optimal(value) => format!(in alloc; "relaxation optimal {value}\n"),
        Verdict::Infeasible => String::from_str(alloc, "relaxation infeasible\n"),
        Verdict::Unbounded => String::from_str(alloc, "relaxation unbounded\n"),
    }
}

fn wide_text(alloc: Global, place: &WideAt) -> Result<String, AllocError>
    ensures { IfOk result (λ text. string_bytes text ≡ text_of (Wide place.now)) }
{
    let mut text = format!(in alloc; "overflow relaxation pivots {} forms ", place.pivots)?;
    push_forms(&mut text, alloc, place.forms.as_slice())?;
    text.push('\n')?;
    Ok(text)
}

fn spent_text(alloc: Global, place: SpentAt) -> Result<String, AllocError>
    ensures { IfOk result (λ text. string_bytes text ≡ text_of (Spent place)) }
{
    let mut text = format!(in alloc; "budget pivots {} relaxation stage ", place.pivots)?;
    text.push_str(form_text(alloc, place.stage)?.as_str())?;
    text.push('\n')?;
    Ok(text)
}

impl Relaxation {
    /// The whole text, one line that ends with LF.
    pub fn text(&self, alloc: Global) -> Result<String, AllocError>
        ensures { IfOk result (λ text. string_bytes text ≡ text_of self.now) }
    {
        match self {
            Relaxation::Solved(verdict) => verdict_text(alloc, *verdict),
            Relaxation::Wide(place) => wide_text(alloc, place),
            Relaxation::Spent(place) => spent_text(alloc, *place),
        }
    }

    /// The status that a program ends with where the text was written.
    pub fn status(&self) -> u8
        ensures { result ≡ status_of self.now }
    {
        match self {
            Relaxation::Solved(_) => 0,
            Relaxation::Wide(_) => 7,
            Relaxation::Spent(_) => 8,
        }
    }
}
