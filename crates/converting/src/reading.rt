//! The certificate that a source gives alone.
ghost use Rattle.std.specs.Prelude.{◌≡◌, ◌≤◌, ◌⊎◌, IfErr, IfOk, length};
ghost use Rattle.cert2_check.specs.Acceptance2.{KeepsAny};
ghost use Rattle.cert2_text.specs.Texts2.{SpellsAny};
ghost use Rattle.command.specs.Inputs.{IsTaken};
ghost use Rattle.converting.specs.Readings.{IsRefusal};
ghost use Rattle.converting.specs.Runs.{IsRight};
ghost use Rattle.converting.specs.declared.refusal.Refusal.TheVariants as refusal;

use crate::laws::a_certificate_alone_is_read_once;
use crate::refusal::Refusal;
use cert2_text::{AnyCert, read_any};
use lp_io::{Source, TakeFault, take_all};
use std::alloc::Global;
use verifier::MOST_BYTES;

// The certificate that the input spells.
fn certificate_in(alloc: Global, input: &[u8]) -> Result<AnyCert, Refusal>
    requires { length input.now ≤ MOST_BYTES }
    ensures read { IfOk result (λ cert. IsTaken MOST_BYTES input.now × SpellsAny input.now cert) }
    ensures form { IfOk result KeepsAny }
    ensures refused { IfErr result (λ r. (r ≡ refusal.NoMemory) ⊎ IsRefusal input.now r) }
{
    match read_any(alloc, input) {
        Ok(cert) => Ok(cert),
        Err(fault) => Err(Refusal::from(fault)),
    }
}

/// The certificate that the source gives alone, of either form; or why there is none. The source is
/// read to its end first.
pub fn read_alone<S: Source>(alloc: Global, src: &mut S) -> Result<AnyCert, Refusal>
    ensures right { IsRight (S.left src.old) (S.faults src.old) (S.faults src.new) result }
    ensures form { IfOk result KeepsAny }
{
    a_certificate_alone_is_read_once();
    match take_all(alloc, src, MOST_BYTES) {
        Ok(input) => certificate_in(alloc, &input),
        Err(TakeFault::ReadFault) => Err(Refusal::ReadFault),
        Err(TakeFault::InputLong) => Err(Refusal::TooLong),
        Err(TakeFault::NoMemory(_)) => Err(Refusal::NoMemory),
    }
}
