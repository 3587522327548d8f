//! What follows for a run from its ending being that of a record.
ghost use Rattle.std.specs.Prelude.{◌≡◌, ℕ, List, length};
ghost use Rattle.lpcc_case.specs.Instance.{Instance};
ghost use Rattle.lpcc_case.specs.Verdicts.{IsTrueOf};
ghost use Rattle.lpcc_case.specs.declared.verdict.Verdict.{Verdict as Claim};
ghost use Rattle.cert_text.specs.declared.cert.Cert.{Cert as Shown};
ghost use Rattle.cert_check.specs.Acceptance.{Accepts, Claims};
ghost use Rattle.play.specs.declared.event.Event.{Event as Happening};
ghost use Rattle.play.specs.declared.event.Options.{Options as Bounds};
ghost use Rattle.play.specs.declared.ending.Ending.{Ending as End};
ghost use Rattle.play.specs.declared.ending.Ending.TheVariants as ending;
ghost use Rattle.nogoods.specs.declared.choice.Side.{Side as Member};
ghost use Rattle.lpcc_case.specs.Cases.{IsCase};
ghost use Rattle.cuts.specs.declared.reason.WideAt.{WideAt as Wide};
ghost use Rattle.cuts.specs.declared.reason.SpentAt.{SpentAt as Spent};
ghost use Rattle.play.specs.Points.{choices_of};
ghost use Rattle.walks.specs.Ends.{IsSpentAt, IsWideAt};
ghost use Rattle.play.specs.Steps.{drawn_in};
ghost use Rattle.play.specs.Truth.{AreDistinct};
ghost use Rattle.desk_part.specs.DeskParts.{IsEndingOf};
ghost use Rattle.engine.specs.Solved.{IsSolved, PiecesLast, PivotsLast};

/// Where an ending is that of a record: a verdict's certificate is accepted with what it claims,
/// which is true; its number is that of the draws, which are of distinct pieces; and a budget of
/// as many draws as there are pieces is never spent.
pub fn solved_verdicts_are_shown()
    ensures accepted { (a : Instance) (o : Bounds) (xs : List Happening) (c : Shown) (n : ℕ) (w : Claim) →
        IsEndingOf a o xs (ending.Verdict c n) → Claims a c w → Accepts a c w }
    ensures truth { (a : Instance) (o : Bounds) (xs : List Happening) (c : Shown) (n : ℕ) (w : Claim) →
        IsEndingOf a o xs (ending.Verdict c n) → Claims a c w → IsTrueOf a w }
    ensures number { (a : Instance) (o : Bounds) (xs : List Happening) (c : Shown) (n : ℕ) →
        IsEndingOf a o xs (ending.Verdict c n) → n ≡ length (drawn_in xs) }
    ensures distinct { (a : Instance) (o : Bounds) (xs : List Happening) (e : End) →
        IsEndingOf a o xs e → AreDistinct (drawn_in xs) }
    ensures pieces { (a : Instance) (o : Bounds) (e : End) → IsSolved a o e → PiecesLast a o e }
    ensures pivots { (a : Instance) (o : Bounds) (e : End) → IsCase a → IsSolved a o e → PivotsLast a o e }
    ensures overflow { (a : Instance) (o : Bounds) (xs : List Happening) (piece : List Member) (at : Wide) →
        IsEndingOf a o xs (ending.Overflow piece at) → IsWideAt a (choices_of piece) at }
    ensures spent { (a : Instance) (o : Bounds) (xs : List Happening) (piece : List Member) (at : Spent) →
        IsEndingOf a o xs (ending.PivotsSpent piece at) → IsSpentAt a (choices_of piece) o.pivots at }
{}
