//! Reading to the end.
ghost use Rattle.std.specs.Prelude.{◌≡◌, ◌≤◌, ◌<◌, ◌↔◌, ℕ, List, [], Some, IfOk, IsErrOf, length, vec_len};
ghost use Rattle.std.specs.Io.KnownBytes.{Consumes};
ghost use Rattle.lp_io.specs.Faults.{Rose};

use crate::Source;
use std::alloc::{AllocError, Global};
use thiserror::Error;

/// Why the bytes of a source were not taken.
#[derive(Debug, Drop, Error)]
pub enum TakeFault {
    #[error("reading failed")]
    ReadFault,
    #[error("the input is too long")]
    InputLong,
    #[error(transparent)]
    NoMemory(AllocError),
}

/// How many bytes are read at once.
const PIECE: usize = 65536;

/// All bytes of the source, which is read to its end. The answer is `ReadFault` only where a read
/// failed, `InputLong` exactly where more than `limit` bytes were read, and `NoMemory` for want of
/// memory. Then the bytes that were read are lost, and the rest is left.
pub fn take_all<S: Source>(alloc: Global, src: &mut S, limit: usize) -> Result<Vec<u8>, TakeFault>
    // What is taken is all that was left, where that is told.
    ensures whole { IfOk result (λ v. (bytes : List ℕ) → S.left src.old ≡ Some bytes →
        (v.items ≡ bytes) × (S.left src.new ≡ Some [])) }
    ensures short { IfOk result (λ v. vec_len v ≤ limit) }

    // Whatever the answer, some bytes were read, more than the limit exactly where it says so.
    ensures front { (read : List ℕ) × Consumes (S.left src.old) (S.left src.new) read ×
        (IsErrOf result TakeFault.InputLong ↔ (limit < length read)) }
    ensures long { IsErrOf result TakeFault.InputLong → (bytes : List ℕ) →
        S.left src.old ≡ Some bytes → limit < length bytes }

    ensures later { S.faults src.old ≤ S.faults src.new }
    ensures failed { IsErrOf result TakeFault.ReadFault →
        Rose (S.faults src.old) (S.faults src.new) }
{
    let mut buffer = piece_of(alloc).map_err(TakeFault::NoMemory)?;
    let mut taken = Vec::new(alloc);
    loop {
        let Ok(count) = src.read(&mut buffer) else {
            return Err(TakeFault::ReadFault);
        };
        if count == 0 {
            return Ok(taken);
        }
        if count > limit - taken.len() {
            return Err(TakeFault::InputLong);
        }
        if let Err(fault) = taken.extend_from_slice(&buffer[..count]) {
            return Err(TakeFault::NoMemory(fault));
        }
    }
}

// Room for the bytes of one read.
fn piece_of(alloc: Global) -> Result<Vec<u8>, AllocError>
    ensures { IfOk result (λ v. vec_len v ≡ PIECE) }
{
    vec![in alloc; 0; PIECE]
}
