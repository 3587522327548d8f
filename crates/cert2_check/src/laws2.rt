//! Why acceptance alone shows the verdict, in either form.
ghost use Rattle.std.specs.Prelude.{◌≡◌, ◌≤ℤ◌, ℕ, pos};
ghost use Rattle.lpcc_case.specs.Instance.{Instance};
ghost use Rattle.lpcc_case.specs.Verdicts.{IsTrueOf};
ghost use Rattle.lpcc_case.specs.declared.verdict.Verdict.{Verdict};
ghost use Rattle.cert_check.specs.declared.accept.NoWhy.{NoWhy as Reason};
ghost use Rattle.cert_check.specs.Acceptance.{Accepts};
ghost use Rattle.cert2_text.specs.declared.cert2.AnyCert.{AnyCert};
ghost use Rattle.cert2_text.specs.declared.cert2.AnyCert.TheVariants as either;
ghost use Rattle.cert2_text.specs.declared.cert2.Cert2.{Cert2};
ghost use Rattle.cert2_text.specs.Wholes.{whole_of};
ghost use Rattle.cert2_check.specs.Acceptance2.{AcceptsAny, RefusesAny};

/// Where a certificate of form 2 is accepted, the certificate of form 1 that says the same, each of its
/// cuts with all multipliers, is accepted with the same verdict.
pub fn whole_certificates_are_accepted()
    ensures { (a : Instance) (cert : Cert2) (v : Verdict) → AcceptsAny a (either.Two cert) v → Accepts a (whole_of cert) v }
{}

/// A verdict for which a certificate of either form is accepted is true of the instance, however the
/// certificate came about.
pub fn accepted_verdicts_are_true()
    ensures { (a : Instance) (cert : AnyCert) (v : Verdict) → AcceptsAny a cert v → IsTrueOf a v }
{}

/// At most one answer is right: one verdict, or one line with one reason.
pub fn acceptance_is_a_function()
    ensures one_verdict { (a : Instance) (cert : AnyCert) (v w : Verdict) → pos 1 ≤ℤ a.scale →
        AcceptsAny a cert v → AcceptsAny a cert w → v ≡ w }
    ensures one_refusal { (a : Instance) (cert : AnyCert) (m n : ℕ) (why other : Reason) →
        RefusesAny a cert m why → RefusesAny a cert n other → (m ≡ n) × (why ≡ other) }
    ensures not_both { (a : Instance) (cert : AnyCert) (v : Verdict) (n : ℕ) (why : Reason) →
        AcceptsAny a cert v → RefusesAny a cert n why → ⊥ }
{}
