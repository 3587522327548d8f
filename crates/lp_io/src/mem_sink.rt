//! Bytes in memory as a sink, which takes them in steps and fails at chosen writes.
ghost use Rattle.std.specs.Prelude.{◌≡◌, ◌≤◌, ◌<◌, ◌-◌, ◌⊎◌, ◌↔◌, [], IfOk, IsErr, length, min, vec_len, vec_capacity};
ghost use Rattle.std.specs.Io.KnownBytes.{WriteAppends};
ghost use Rattle.lp_io.specs.Faults.{CountsFaults};
ghost use Rattle.lp_io.specs.Memory.{IsToFail, CountsCall};

use crate::mem_source::is_to_fail;
use crate::{Failed, Sink};
use std::alloc::{AllocError, Global};

/// A sink that keeps what is written, at most `step` bytes of one write and `room` in all. The
/// writes whose numbers stand in `fails` fail, and so does each that finds no room for its bytes.
/// Writes are counted in `calls` from 1, failed ones in `faults`; both rest at the last value of
/// their type, and `fails` does not speak of the write of that number.
#[derive(Drop)]
pub struct MemSink {
    pub bytes: Vec<u8>,
    pub room: usize,
    pub step: usize,
    pub fails: Vec<u64>,
    pub calls: u64,
    pub faults: u64,
    pub ghost moves: { 1 ≤ step },
    pub ghost within: { vec_len bytes ≤ room },
    pub ghost held: { room ≤ vec_capacity bytes },
}

impl MemSink {
    /// An empty sink with memory for `room` bytes. Its writes take none.
    pub fn create(
        alloc: Global,
        room: usize,
        step: usize,
        fails: Vec<u64>,
    ) -> Result<MemSink, AllocError>
        requires { 1 ≤ step }
        ensures bytes { IfOk result (λ sink. sink.bytes.items ≡ []) }
        ensures room { IfOk result (λ sink. sink.room ≡ room) }
        ensures step { IfOk result (λ sink. sink.step ≡ step) }
        ensures fails { IfOk result (λ sink. sink.fails.items ≡ fails.items) }
        ensures calls { IfOk result (λ sink. sink.calls ≡ 0) }
        ensures faults { IfOk result (λ sink. sink.faults ≡ 0) }
    {
        Ok(MemSink {
            bytes: Vec::with_capacity(alloc, room)?,
            room,
            step,
            fails,
            calls: 0,
            faults: 0,
        })
    }
}

impl Sink for MemSink {
    ghost use Rattle.std.specs.Prelude.{Some};

    ghost taken = { λ m. Some m.bytes.items };

    ghost faults = { λ m. m.faults };

    fn write(&mut self, piece: &[u8]) -> Result<usize, Failed>
        ensures within { IfOk result (λ n. n ≤ length piece.now) }
        ensures some { 0 < length piece.now → IfOk result (λ n. 0 < n) }
        ensures appended { WriteAppends (Some self.old.bytes.items) (Some self.new.bytes.items)
            result piece.now }
        ensures counted { CountsFaults self.old.faults self.new.faults result }

        // Which writes fail, and how many bytes the others move.
        ensures calls { CountsCall self.old.calls self.old.faults self.new.calls self.new.faults
            result }
        ensures fails { IsErr result ↔ (IsToFail self.old.fails.items self.new.calls ⊎
            ((0 < length piece.now) × (self.old.room ≤ vec_len self.old.bytes))) }
        ensures moved { IfOk result (λ n. n ≡ min self.old.step
            (min (self.old.room - vec_len self.old.bytes) (length piece.now))) }

        // What no write changes.
        ensures room { self.new.room ≡ self.old.room }
        ensures step { self.new.step ≡ self.old.step }
        ensures listed { self.new.fails.items ≡ self.old.fails.items }
    {
        self.calls = self.calls.saturating_add(1);
        let left = self.room - self.bytes.len();
        if is_to_fail(&self.fails, self.calls) || (left == 0 && !piece.is_empty()) {
            self.faults = self.faults.saturating_add(1);
            return Err(Failed);
        }
        let count = self.step.min(left).min(piece.len());
        self.bytes.extend_from_slice(&piece[..count]).unwrap();
        Ok(count)
    }
}
