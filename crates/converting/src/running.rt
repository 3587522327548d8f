//! The command over a source and a sink.
ghost use Rattle.std.specs.Prelude.{◌≡◌, ◌⊎◌, ℕ, List, Err, Ok, IfOk, Result, Some};
ghost use Rattle.cert2_check.specs.Acceptance2.{KeepsAny};
ghost use Rattle.cert2_text.specs.Spelling2.{spelling2};
ghost use Rattle.cert2_text.specs.declared.cert2.AnyCert.{AnyCert as Certificate};
ghost use Rattle.command.specs.Answers.{IsWritten};
ghost use Rattle.converting.specs.Readings.{in_form_2};
ghost use Rattle.converting.specs.Runs.{IsConverted, SaysConverted, status_of, text_of};
ghost use Rattle.converting.specs.declared.refusal.Refusal.{Refusal as Reason};
ghost use Rattle.converting.specs.declared.refusal.Refusal.TheVariants as refusal;

use crate::reading::read_alone;
use crate::refusal::Refusal;
use cert2_text::AnyCert;
use cert2_write::write_cert2;
use command::{Status, give, give_no_memory};
use lp_io::{Sink, Source};
use migrating::migrate;
use std::alloc::{AllocError, Global};

// The text of the certificate in form 2.
fn text_in_form_2(alloc: Global, cert: &AnyCert) -> Result<Vec<u8>, AllocError>
    requires { KeepsAny cert.now }
    ensures { IfOk result (λ text. text.items ≡ spelling2 (in_form_2 cert.now)) }
{
    match cert {
        AnyCert::One(cert) => {
            let made = migrate(alloc, cert)?;
            write_cert2(alloc, &made)
        },
        AnyCert::Two(cert) => write_cert2(alloc, cert),
    }
}

// Writes the certificate in form 2. Where there is no memory for the text, the answer is that.
fn give_certificate<K: Sink>(alloc: Global, cert: &AnyCert, out: &mut K) -> Status
    requires { KeepsAny cert.now }
    ensures { (given : Result Certificate Reason) × ((given ≡ Ok cert.now) ⊎ (given ≡ Err refusal.NoMemory))
        × IsWritten (K.taken out.old) (K.taken out.new) (K.faults out.old) (K.faults out.new) (text_of given) (status_of given) result }
{
    match text_in_form_2(alloc, cert) {
        Ok(text) => give(text.as_slice(), 0, out),
        Err(_) => give_no_memory(out),
    }
}

// Writes the refusal. Where there is no memory for the text, the answer is that.
fn give_refusal<K: Sink>(alloc: Global, why: Refusal, out: &mut K) -> Status
    ensures { (given : Result Certificate Reason) × ((given ≡ Err why) ⊎ (given ≡ Err refusal.NoMemory))
        × IsWritten (K.taken out.old) (K.taken out.new) (K.faults out.old) (K.faults out.new) (text_of given) (status_of given) result }
{
    match why.text(alloc) {
        Ok(text) => give(text.as_bytes(), why.status(), out),
        Err(_) => give_no_memory(out),
    }
}

/// Reads the source to its end, a certificate of either form, and writes it in form 2 without
/// comments, or why the bytes are no certificate; answers the status that a program ends with. It
/// takes no handle, and always returns.
pub fn convert<S: Source, K: Sink>(alloc: Global, src: &mut S, out: &mut K) -> Status
    // One reading is right, and what goes with it is written.
    ensures answered { IsConverted (S.left src.old) (S.faults src.old) (S.faults src.new)
        (K.taken out.old) (K.taken out.new) (K.faults out.old) (K.faults out.new) result }

    // Status 0 says that the bytes spell a certificate, which is written in form 2.
    ensures converted { result ≡ 0 → (bytes : List ℕ) → S.left src.old ≡ Some bytes →
        SaysConverted bytes (K.taken out.old) (K.taken out.new) }
{
    match read_alone(alloc, src) {
        Ok(cert) => give_certificate(alloc, &cert, out),
        Err(refusal) => give_refusal(alloc, refusal, out),
    }
}
