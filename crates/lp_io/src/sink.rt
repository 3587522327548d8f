//! A sink for bytes that counts its faults.
ghost use Rattle.std.specs.Prelude.{◌≤◌, ◌<◌, ℕ, List, Option, IfOk, length};
ghost use Rattle.std.specs.Io.KnownBytes.{WriteAppends};
ghost use Rattle.lp_io.specs.Faults.{CountsFaults};

use crate::Failed;

/// Where bytes go.
pub trait Sink {
    /// The bytes that were written so far, where the sink tells them.
    ghost taken: { Self → Option (List ℕ) };

    /// How often writing has failed, kept in 64 bits. At its last value the count rests.
    ghost faults: { Self → ℕ };

    /// Writes a front of the piece and answers how many bytes that was, at least one where the
    /// piece has any. A write that fails appends nothing and is counted.
    fn write(&mut self, piece: &[u8]) -> Result<usize, Failed>
        ensures within { IfOk result (λ n. n ≤ length piece.now) }
        ensures some { 0 < length piece.now → IfOk result (λ n. 0 < n) }
        ensures appended { WriteAppends (taken self.old) (taken self.new) result piece.now }
        ensures counted { CountsFaults (faults self.old) (faults self.new) result };
}
