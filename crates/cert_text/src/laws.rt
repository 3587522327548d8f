//! Laws of texts and certificates.
ghost use Rattle.std.specs.Prelude.{◌≡◌, ◌<◌, ◌^◌, ◌⊎◌, ℕ, List, length};
ghost use Rattle.cert_text.specs.declared.cert.Cert.{Cert};
ghost use Rattle.cert_text.specs.declared.fault.CertWhy.{CertWhy};
ghost use Rattle.cert_text.specs.Certs.{KeepsForm, lines_of};
ghost use Rattle.cert_text.specs.Spelling.{spelling};
ghost use Rattle.cert_text.specs.Texts.{Spells, Fails};

/// A text spells at most one certificate.
pub fn a_text_spells_one_certificate()
    ensures { (text : List ℕ) (one other : Cert) → Spells text one → Spells text other → one ≡ other }
{}

/// A text has at most one first fault.
pub fn a_text_has_one_first_fault()
    ensures { (text : List ℕ) (m n : ℕ) (one other : CertWhy) →
        Fails text m one → Fails text n other → (m ≡ n) × (one ≡ other) }
{}

/// A text that spells a certificate has no fault.
pub fn what_is_spelled_does_not_fail()
    ensures { (text : List ℕ) (cert : Cert) (line : ℕ) (why : CertWhy) →
        Spells text cert → Fails text line why → ⊥ }
{}

/// A text spells a certificate, or it has a first fault.
pub fn a_text_spells_a_certificate_or_fails()
    ensures { (text : List ℕ) →
        ((cert : Cert) × Spells text cert) ⊎ ((line : ℕ) × (why : CertWhy) × Fails text line why) }
{}

/// The spelling of a certificate that keeps the rules of its form spells this certificate.
pub fn what_is_written_is_spelled()
    ensures { (cert : Cert) → KeepsForm cert → length (lines_of cert) < 2 ^ 64 → Spells (spelling cert) cert }
{}
