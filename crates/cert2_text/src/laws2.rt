//! Laws of texts and certificates of either form.
ghost use Rattle.std.specs.Prelude.{◌≡◌, ◌<◌, ◌^◌, ◌⊎◌, ℕ, List};
ghost use Rattle.cert_text.specs.declared.fault.CertWhy.{CertWhy};
ghost use Rattle.cert2_text.specs.declared.cert2.AnyCert.{AnyCert as Certificate};
ghost use Rattle.cert2_text.specs.declared.cert2.Cert2.{Cert2};
ghost use Rattle.cert2_text.specs.Certs2.{KeepsForm2, lines2_of, count_of};
ghost use Rattle.cert2_text.specs.Spelling2.{spelling2};
ghost use Rattle.cert2_text.specs.Texts2.{Spells2, SpellsAny, FailsAny};

/// A text spells at most one certificate.
pub fn a_text_spells_one()
    ensures { (text : List ℕ) (one other : Certificate) → SpellsAny text one → SpellsAny text other → one ≡ other }
{}

/// A text has at most one first fault.
pub fn a_text_has_one_first_fault()
    ensures { (text : List ℕ) (m n : ℕ) (one other : CertWhy) →
        FailsAny text m one → FailsAny text n other → (m ≡ n) × (one ≡ other) }
{}

/// A text that spells a certificate has no fault.
pub fn what_is_spelled_does_not_fail()
    ensures { (text : List ℕ) (cert : Certificate) (line : ℕ) (why : CertWhy) →
        SpellsAny text cert → FailsAny text line why → ⊥ }
{}

/// A text spells a certificate, or it has a first fault.
pub fn a_text_spells_or_fails()
    ensures { (text : List ℕ) →
        ((cert : Certificate) × SpellsAny text cert) ⊎ ((line : ℕ) × (why : CertWhy) × FailsAny text line why) }
{}

/// The spelling of a certificate of form 2 that keeps the rules of its form spells this certificate.
pub fn what_is_written_is_spelled()
    ensures { (cert : Cert2) → KeepsForm2 cert → count_of (lines2_of cert) < 2 ^ 64 → Spells2 (spelling2 cert) cert }
{}
