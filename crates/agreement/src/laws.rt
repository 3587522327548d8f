//! What the solver writes behind a deck, the checker accepts.
ghost use Rattle.std.specs.Prelude.{◌++◌, ℕ, List, Option, Some};
ghost use Rattle.lp_io.specs.Faults.{Rose};
ghost use Rattle.lpcc_case.specs.declared.verdict.Verdict.{Verdict as Claim};
ghost use Rattle.play.specs.declared.event.Options.{Options as Bounds};
ghost use Rattle.report.specs.declared.style.Style.{Style as Manner};
ghost use Rattle.verifier.specs.Runs.{IsChecked};
ghost use Rattle.agreement.specs.Agreement.{IsAgreed, IsSolved, SaysYesToo};

use decks::{spelled_by_first_lines, spelled_once};
use verifier::{a_status_tells_the_answer, each_cause_is_answered};

/// A deck up to and with its ENDATA line, with what the solver wrote behind it, is accepted with
/// the verdict that the solver named.
pub fn solutions_are_accepted()
    ensures { (bytes deck text : List ℕ) (o : Bounds) (style : Manner) → IsSolved bytes deck text o style → (v : Claim) × IsAgreed deck text v }
{
    spelled_once();
    spelled_by_first_lines();
}

/// So it is answered with `yes` and the same verdict, or with want of memory, where no fault of
/// reading or of writing is counted.
pub fn solutions_are_answered_yes()
    ensures { (bytes deck text : List ℕ) (o : Bounds) (style : Manner) (rb rn : ℕ) (tb tn : Option (List ℕ)) (wb wn status : ℕ) →
        IsSolved bytes deck text o style → IsChecked (Some (deck ++ text)) rb rn tb tn wb wn status →
        (Rose rb rn → ⊥) → (Rose wb wn → ⊥) → SaysYesToo deck text tb tn status }
{
    solutions_are_accepted();
    a_status_tells_the_answer();
    each_cause_is_answered();
}
