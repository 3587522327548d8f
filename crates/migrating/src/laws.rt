//! Laws of migration.
ghost use Rattle.std.specs.Prelude.{◌≡◌, ◌↔◌, ◌<◌, ◌^◌, length};
ghost use Rattle.lpcc_case.specs.Instance.{Instance};
ghost use Rattle.lpcc_case.specs.declared.verdict.Verdict.{Verdict};
ghost use Rattle.cert_text.specs.declared.cert.Cert.{Cert};
ghost use Rattle.cert_text.specs.Certs.{KeepsForm, lines_of};
ghost use Rattle.cert_check.specs.Acceptance.{Accepts};
ghost use Rattle.cert2_text.specs.declared.cert2.AnyCert.TheVariants as either;
ghost use Rattle.cert2_text.specs.Certs2.{KeepsForm2, count_of, lines2_of};
ghost use Rattle.cert2_text.specs.Wholes.{whole_of};
ghost use Rattle.cert2_check.specs.Acceptance2.{AcceptsAny};
ghost use Rattle.migrating.specs.Migration.{migrated};

/// The migration of a certificate says the same: the certificate of form 1 whose cuts have all
/// multipliers is the certificate that was migrated.
pub fn migrations_say_the_same()
    ensures { (c : Cert) → KeepsForm c → whole_of (migrated c) ≡ c }
{}

/// A certificate and its migration are accepted for the same instances with the same verdict.
pub fn migrations_are_accepted_alike()
    ensures { (a : Instance) (c : Cert) (v : Verdict) → KeepsForm c → Accepts a c v ↔ AcceptsAny a (either.Two (migrated c)) v }
{}

/// The migration of a certificate keeps the rules of form 2.
pub fn migrations_keep_their_form()
    ensures { (c : Cert) → KeepsForm c → length (lines_of c) < 2 ^ 64 → KeepsForm2 (migrated c) }
{}

/// A certificate and its migration have as many no-good lines.
pub fn migrations_count_alike()
    ensures { (c : Cert) → count_of (lines2_of (migrated c)) ≡ length (lines_of c) }
{}
