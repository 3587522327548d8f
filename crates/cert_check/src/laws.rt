//! Why acceptance alone shows the verdict.
ghost use Rattle.std.specs.Prelude.{◌≡◌, ◌≤ℤ◌, ℕ, pos, All, List, Option, map};
ghost use Rattle.lpcc_case.specs.Instance.{Instance};
ghost use Rattle.lpcc_case.specs.Points.{Point};
ghost use Rattle.lpcc_case.specs.Pieces.{BarsNothingLower};
ghost use Rattle.lpcc_case.specs.Verdicts.{IsTrueOf};
ghost use Rattle.lpcc_case.specs.declared.verdict.Verdict.{Verdict};
ghost use Rattle.cert_text.specs.declared.cert.Cert.{Cert};
ghost use Rattle.cert_text.specs.declared.cert.CertLine.{CertLine};
ghost use Rattle.cert_text.specs.Certs.{no_good_of};
ghost use Rattle.cert_check.specs.declared.accept.NoWhy.{NoWhy as Reason};
ghost use Rattle.cert_check.specs.Acceptance.{Accepts, Refuses};
ghost use Rattle.cert_check.specs.Barring.{NoGoodsPass, claimed_by};

/// Where no line fails over those before it, each no-good bars only pieces in which no point is
/// lower than the best point, whose value is claimed; without one, only pieces without points.
pub fn passed_lines_bar_nothing_lower()
    ensures { (a : Instance) (best : Option (Point a.columns)) (lines : List CertLine) → NoGoodsPass a (claimed_by a best) lines →
        All (BarsNothingLower a best) (map no_good_of lines) }
{}

/// A verdict for which a certificate is accepted is true of the instance, however the certificate
/// came about.
pub fn accepted_verdicts_are_true()
    ensures { (a : Instance) (cert : Cert) (v : Verdict) → Accepts a cert v → IsTrueOf a v }
{}

/// At most one answer is right: one verdict, or one line with one reason.
pub fn acceptance_is_a_function()
    ensures one_verdict { (a : Instance) (cert : Cert) (v w : Verdict) → pos 1 ≤ℤ a.scale →
        Accepts a cert v → Accepts a cert w → v ≡ w }
    ensures one_refusal { (a : Instance) (cert : Cert) (m n : ℕ) (why other : Reason) →
        Refuses a cert m why → Refuses a cert n other → (m ≡ n) × (why ≡ other) }
    ensures not_both { (a : Instance) (cert : Cert) (v : Verdict) (n : ℕ) (why : Reason) →
        Accepts a cert v → Refuses a cert n why → ⊥ }
{}
