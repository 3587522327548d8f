//! What follows for an answer from its being that of a run over kept cuts.
ghost use Rattle.std.specs.Prelude.{◌≡◌, ℕ, ℤ, Contains, List};
ghost use Rattle.nogoods.specs.Pieces.{Bars};
ghost use Rattle.nogoods.specs.declared.choice.Choice.{Choice as Member};
ghost use Rattle.nogoods.specs.declared.choice.Side.{Side as Half};
ghost use Rattle.lpcc_case.specs.Cases.{IsCase};
ghost use Rattle.lpcc_case.specs.Instance.{Instance};
ghost use Rattle.lpcc_case.specs.Verdicts.{SameVerdict};
ghost use Rattle.lpcc_case.specs.declared.verdict.Verdict.{Verdict as Claim};
ghost use Rattle.cert_text.specs.declared.cert.Cert.{Cert as Proof};
ghost use Rattle.cert_check.specs.Acceptance.{Claims};
ghost use Rattle.cuts.specs.declared.cut.Cut.{Cut as Known};
ghost use Rattle.cuts.specs.declared.cut.Cut.TheVariants.{Ray};
ghost use Rattle.play.specs.declared.ending.Ending.{Ending as End};
ghost use Rattle.play.specs.declared.event.Options.{Options as Bounds};
ghost use Rattle.play.specs.Steps.{drawn_in};
ghost use Rattle.engine.specs.Solved.{IsShown};
ghost use Rattle.edit_session.specs.Answers.{IsAnswer};

/// No piece that a run over kept cuts draws is barred by one of the kept ray cuts.
pub fn no_drawn_piece_is_barred_by_a_kept_ray_cut()
    ensures { (a : Instance) (o : Bounds) (kept settled : List Known) (end : End) (answer : IsAnswer a o kept end settled)
        (ng : List Member) (mult : List (ℕ × ℤ)) (piece : List Half) →
        Contains kept (Ray ng mult) → Contains (drawn_in answer.events) piece → Bars ng piece → ⊥ }
{}

/// Two runs over one case that end with verdicts end with the same one: an answer over kept cuts and
/// a run without them, say, whatever the options of each.
pub fn runs_over_one_case_agree()
    ensures { (a : Instance) (o p : Bounds) (cert other : Proof) (n m : ℕ) (v w : Claim) → IsCase a →
        IsShown a o cert n → IsShown a p other m → Claims a cert v → Claims a other w → SameVerdict v w }
{}
