//! The readers and writers of std as a source and as a sink, which tell no bytes of their own.
ghost use Rattle.std.specs.Prelude.{◌≡◌, ◌≤◌, ◌<◌, if◌then◌else◌, is_ok, IfOk, length};
ghost use Rattle.std.specs.Io.KnownBytes.{ReadConsumes, WriteAppends};
ghost use Rattle.lp_io.specs.Faults.{CountsFaults, one_more};

use crate::{Failed, Sink, Source};
use std::io::{Read, Write};

/// A reader of std, as standard input is, with a count of its errors.
#[derive(Drop)]
pub struct StdSource<R: Read + Drop> {
    pub input: R,
    pub faults: u64,
}

/// A writer of std, as standard output is, with a count of its errors.
#[derive(Drop)]
pub struct StdSink<W: Write + Drop> {
    pub output: W,
    pub faults: u64,
}

impl<R: Read + Drop> StdSource<R> {
    /// A source over the reader. It takes no memory.
    pub fn over(input: R) -> StdSource<R>
        ensures input { result.input ≡ input }
        ensures faults { result.faults ≡ 0 }
    {
        StdSource { input, faults: 0 }
    }
}

impl<R: Read + Drop> Source for StdSource<R> {
    ghost use Rattle.std.specs.Prelude.{None};

    ghost left = { λ _. None };

    ghost faults = { λ s. s.faults };

    fn read(&mut self, into: &mut [u8]) -> Result<usize, Failed>
        ensures within { IfOk result (λ n. n ≤ length into.new) }

        // The reader's own bytes, where it tells them.
        ensures passed { ReadConsumes (R.remaining self.old.input) (R.remaining self.new.input)
            result into.new }

        // The count rises at each failure, and rests at its last value.
        ensures counted { CountsFaults self.old.faults self.new.faults result }
        ensures exact { self.new.faults ≡
            (if is_ok result then self.old.faults else one_more self.old.faults) }
    {
        if let Ok(count) = self.input.read(into) {
            return Ok(count);
        }
        self.faults = self.faults.saturating_add(1);
        Err(Failed)
    }
}

impl<W: Write + Drop> StdSink<W> {
    /// A sink over the writer. It takes no memory.
    pub fn over(output: W) -> StdSink<W>
        ensures output { result.output ≡ output }
        ensures faults { result.faults ≡ 0 }
    {
        StdSink { output, faults: 0 }
    }
}

impl<W: Write + Drop> Sink for StdSink<W> {
    ghost use Rattle.std.specs.Prelude.{None};

    ghost taken = { λ _. None };

    ghost faults = { λ s. s.faults };

    fn write(&mut self, piece: &[u8]) -> Result<usize, Failed>
        ensures within { IfOk result (λ n. n ≤ length piece.now) }
        ensures some { 0 < length piece.now → IfOk result (λ n. 0 < n) }

        // The writer's own bytes, where it tells them.
        ensures passed { WriteAppends (W.contents self.old.output) (W.contents self.new.output)
            result piece.now }

        // The count rises at each failure, and rests at its last value.
        ensures counted { CountsFaults self.old.faults self.new.faults result }
        ensures exact { self.new.faults ≡
            (if is_ok result then self.old.faults else one_more self.old.faults) }
    {
        if let Ok(count) = self.output.write(piece) {
            if count > 0 || piece.is_empty() {
                return Ok(count);
            }
        }
        self.faults = self.faults.saturating_add(1);
        Err(Failed)
    }
}
