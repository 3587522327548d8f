//! What an input shows.
ghost use Rattle.std.specs.Prelude.{◌≤◌, ◌<◌, ◌^◌, ◌≡◌, ◌⊎◌, ◌-◌, IfErr, IfOk, length};
ghost use Rattle.lpcc_case.specs.Instance.{Instance};
ghost use Rattle.cert2_text.specs.Texts2.{SpellsAny};
ghost use Rattle.cert2_check.specs.Acceptance2.{KeepsAny};
ghost use Rattle.command.specs.declared.refusal.Refusal.TheVariants as refusal;
ghost use Rattle.verifier.specs.declared.answer.Answer.TheVariants.{Refused};
ghost use Rattle.verifier.specs.Causes.{IsCause, SpellsCertified};
ghost use Rattle.verifier.specs.Judged.{OfRest, of_acceptance, of_certificate_fault, of_check_fault};

use crate::answer::Answer;
use cert_check::{CheckFault, Verdict};
use cert_text::CertFault;
use cert2_check::check_any;
use cert2_text::{AnyCert, read_any};
use command::{Extent, Refusal, case_in};
use lpcc_case::Case;
use parallel_check::check_many;
use std::alloc::Global;
use std::thread::Threads;

/// The most bytes that are taken.
pub const MOST_BYTES: usize = 1_073_741_824;

impl From<CertFault> for Answer {
    ghost from_gives = { λ fault answer. answer ≡ of_certificate_fault fault };

    fn from(fault: CertFault) -> Answer {
        match fault {
            CertFault::At { line, why } => Answer::Certificate { line, why },
            CertFault::NoMemory(_) => Answer::Refused(Refusal::NoMemory),
        }
    }
}

impl From<CheckFault> for Answer {
    ghost from_gives = { λ fault answer. answer ≡ of_check_fault fault };

    fn from(fault: CheckFault) -> Answer {
        match fault {
            CheckFault::No { line, why } => Answer::No { line, why },
            CheckFault::NoMemory(_) => Answer::Refused(Refusal::NoMemory),
        }
    }
}

// The certificate that the bytes behind a deck spell, or what they show else.
fn certificate_in(alloc: Global, rest: &[u8]) -> Result<AnyCert, Answer>
    requires { length rest.now < 2 ^ 32 - 1 }
    ensures spelled { IfOk result (λ cert. SpellsAny rest.now cert) }
    ensures form { IfOk result KeepsAny }
    ensures refused { IfErr result (λ x. (a : Instance) → (x ≡ Refused refusal.NoMemory) ⊎ OfRest a rest.now x) }
{
    match read_any(alloc, rest) {
        Ok(cert) => Ok(cert),
        Err(fault) => Err(Answer::from(fault)),
    }
}

// The case of the deck with which the input begins, and the certificate behind it; or what the input
// shows without judging.
fn case_and_certificate(alloc: Global, input: &[u8]) -> Result<(Case, AnyCert), Answer>
    requires { length input.now ≤ MOST_BYTES }
    ensures spelled { IfOk result (λ r. SpellsCertified input.now r.0 r.1) }
    ensures form { IfOk result (λ r. KeepsAny r.1) }
    ensures refused { IfErr result (λ x. (x ≡ Refused refusal.NoMemory) ⊎ IsCause input.now x) }
{
    match case_in(alloc, input, Extent::Prefix) {
        Ok((case, place)) => match certificate_in(alloc, &input[place..]) {
            Ok(cert) => Ok((case, cert)),
            Err(answer) => Err(answer),
        },
        Err(refusal) => Err(Answer::Refused(refusal)),
    }
}

// What acceptance says.
fn accepted_or_not(accepted: Result<Verdict, CheckFault>) -> Answer
    ensures { result ≡ of_acceptance accepted }
{
    match accepted {
        Ok(verdict) => Answer::Yes(verdict),
        Err(fault) => Answer::from(fault),
    }
}

/// What the input shows: a deck, its case, behind it a certificate of either form, and whether that
/// is accepted. The first of these that fails is the answer.
pub fn judge(alloc: Global, input: &[u8]) -> Answer
    requires { length input.now ≤ MOST_BYTES }
    ensures { (result ≡ Refused refusal.NoMemory) ⊎ IsCause input.now result }
{
    match case_and_certificate(alloc, input) {
        Ok((case, cert)) => accepted_or_not(check_any(alloc, &case, &cert)),
        Err(answer) => answer,
    }
}

/// The same, with cuts tested in as many threads as there are processors.
pub fn judge_many<R: Threads + Sync>(rt: &R, alloc: Global, input: &[u8]) -> Answer
    requires { length input.now ≤ MOST_BYTES }
    ensures { (result ≡ Refused refusal.NoMemory) ⊎ IsCause input.now result }
{
    match case_and_certificate(alloc, input) {
        Ok((case, cert)) => accepted_or_not(check_many(rt, alloc, &case, &cert)),
        Err(answer) => answer,
    }
}
