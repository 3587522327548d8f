//! A source of bytes that counts its faults.
ghost use Rattle.std.specs.Prelude.{◌≤◌, ℕ, List, Option, IfOk, length};
ghost use Rattle.std.specs.Io.KnownBytes.{ReadConsumes};
ghost use Rattle.lp_io.specs.Faults.{CountsFaults};

/// A call failed. The count of faults of its source or sink says so too.
#[derive(Clone, Copy, Debug, PartialEq, Eq)]
pub struct Failed;

/// Where bytes come from.
pub trait Source {
    /// The bytes that are not yet read, where the source tells them.
    ghost left: { Self → Option (List ℕ) };

    /// How often reading has failed, kept in 64 bits. At its last value the count rests.
    ghost faults: { Self → ℕ };

    /// Reads some of the bytes that are left, from their front, to the front of the buffer, and
    /// answers how many. Into a buffer with room it answers 0 only where none is left. A read that
    /// fails leaves the bytes and is counted.
    fn read(&mut self, into: &mut [u8]) -> Result<usize, Failed>
        ensures within { IfOk result (λ n. n ≤ length into.new) }
        ensures taken { ReadConsumes (left self.old) (left self.new) result into.new }
        ensures counted { CountsFaults (faults self.old) (faults self.new) result };
}
