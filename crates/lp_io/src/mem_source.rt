//! Bytes in memory as a source, which gives them in steps and fails at chosen reads.
ghost use Rattle.std.specs.Prelude.{◌≡◌, ◌≤◌, ◌-◌, ◌+◌, ◌↔◌, IfOk, OnErr, IsErr, IsTrue, length, min, take, vec_len};
ghost use Rattle.std.specs.Io.KnownBytes.{ReadConsumes};
ghost use Rattle.lp_io.specs.Faults.{CountsFaults};
ghost use Rattle.lp_io.specs.Memory.{IsToFail, CountsCall};

use crate::{Failed, Source};

/// A source that gives the bytes from `place` on, at most `step` in one read. The reads whose
/// numbers stand in `fails` fail. Reads are counted in `calls` from 1, failed ones in `faults`;
/// both rest at the last value of their type, and the read of that number never fails.
#[derive(Drop)]
pub struct MemSource {
    pub bytes: Vec<u8>,
    pub place: usize,
    pub step: usize,
    pub fails: Vec<u64>,
    pub calls: u64,
    pub faults: u64,
    pub ghost moves: { 1 ≤ step },
    pub ghost within: { place ≤ vec_len bytes },
}

impl MemSource {
    /// A source of all these bytes, not yet read. It takes no memory.
    pub fn over(bytes: Vec<u8>, step: usize, fails: Vec<u64>) -> MemSource
        requires { 1 ≤ step }
        ensures bytes { result.bytes.items ≡ bytes.items }
        ensures place { result.place ≡ 0 }
        ensures step { result.step ≡ step }
        ensures fails { result.fails.items ≡ fails.items }
        ensures calls { result.calls ≡ 0 }
        ensures faults { result.faults ≡ 0 }
    {
        MemSource {
            bytes,
            place: 0,
            step,
            fails,
            calls: 0,
            faults: 0,
        }
    }
}

impl Source for MemSource {
    ghost use Rattle.std.specs.Prelude.{Some, drop};

    ghost left = { λ m. Some (drop m.place m.bytes.items) };

    ghost faults = { λ m. m.faults };

    fn read(&mut self, into: &mut [u8]) -> Result<usize, Failed>
        ensures within { IfOk result (λ n. n ≤ length into.new) }
        ensures taken { ReadConsumes (Some (drop self.old.place self.old.bytes.items))
            (Some (drop self.new.place self.new.bytes.items)) result into.new }
        ensures counted { CountsFaults self.old.faults self.new.faults result }

        // Which reads fail, and how many bytes the others move.
        ensures calls { CountsCall self.old.calls self.old.faults self.new.calls self.new.faults
            result }
        ensures fails { IsErr result ↔ IsToFail self.old.fails.items self.new.calls }
        ensures moved { IfOk result (λ n. n ≡ min self.old.step
            (min (vec_len self.old.bytes - self.old.place) (length into.new))) }
        ensures place { IfOk result (λ n. self.new.place ≡ self.old.place + n) }
        ensures unmoved { OnErr result (self.new.place ≡ self.old.place) }

        // What no read changes.
        ensures bytes { self.new.bytes.items ≡ self.old.bytes.items }
        ensures step { self.new.step ≡ self.old.step }
        ensures listed { self.new.fails.items ≡ self.old.fails.items }
    {
        self.calls = self.calls.saturating_add(1);
        if is_to_fail(&self.fails, self.calls) {
            self.faults = self.faults.saturating_add(1);
            return Err(Failed);
        }
        let count = copy_front(&self.bytes[self.place..], self.step, into);
        self.place += count;
        Ok(count)
    }
}

// Whether the call of this number is one of those that fail.
pub(crate) fn is_to_fail(fails: &[u64], call: u64) -> bool
    ensures { IsTrue result ↔ IsToFail fails.now call }
{
    call < u64::MAX && fails.contains(&call)
}

// Copies at most that many bytes to the front of the buffer, and says how many.
fn copy_front(from: &[u8], most: usize, into: &mut [u8]) -> usize
    ensures count { result ≡ min most (min (length from.now) (length into.new)) }
    ensures front { take result into.new ≡ take result from.now }
{
    let count = most.min(from.len()).min(into.len());
    into[..count].copy_from_slice(&from[..count]);
    count
}
