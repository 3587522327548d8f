//! The steps of a log by their last choice. Nothing rests on it: what it names is tested.
ghost use Rattle.std.specs.Prelude.{◌<◌, length};
ghost use Rattle.derivation.specs.Logs.{no_goods};

use crate::prefix::choices_of;
use derivation::Log;
use nogoods::{Choice, Side};
use std::alloc::{AllocError, Global};

const NONE: usize = usize::MAX;

/// For each pair the newest step whose last choice is side A there, and side B; for each step the
/// newest of those before it with the same last choice.
pub(crate) struct Index {
    a: Vec<usize>,
    b: Vec<usize>,
    before: Vec<usize>,
}

/// By a call, which keeps the models of the functions small that own one.
impl Drop for Index {
    fn drop(self) {
        let Index {
            a: _,
            b: _,
            before: _,
        } = self;
    }
}

fn at_or_none(list: &[usize], at: usize) -> usize {
    match list.get(at) {
        Some(step) => *step,
        None => NONE,
    }
}

/// Puts a step into the place, and gives what was there.
fn put(list: &mut Vec<usize>, at: usize, step: usize) -> usize {
    if at >= list.len() {
        return NONE;
    }
    let was = list[at];
    list[at] = step;
    was
}

impl Index {
    pub(crate) fn create(alloc: Global, pairs: usize, steps: usize) -> Result<Index, AllocError> {
        Ok(Index {
            a: vec![in alloc; NONE; pairs]?,
            b: vec![in alloc; NONE; pairs]?,
            before: Vec::with_capacity(alloc, steps)?,
        })
    }

    pub(crate) fn newest(&self, pair: usize, side: Side) -> usize {
        match side {
            Side::A => at_or_none(self.a.as_slice(), pair),
            Side::B => at_or_none(self.b.as_slice(), pair),
        }
    }

    pub(crate) fn older(&self, step: usize) -> usize {
        at_or_none(self.before.as_slice(), step)
    }

    fn enter(&mut self, step: usize, last: Choice) -> usize {
        match last.side {
            Side::A => put(&mut self.a, last.pair as usize, step),
            Side::B => put(&mut self.b, last.pair as usize, step),
        }
    }

    /// Adds the next step.
    pub(crate) fn add(&mut self, choices: &[Choice]) -> Result<(), AllocError> {
        let step = self.before.len();
        let was = match choices.last() {
            Some(last) => self.enter(step, *last),
            None => NONE,
        };
        self.before.push(was)?;
        Ok(())
    }

    /// Adds the steps of the log that are not there yet.
    pub(crate) fn fill(&mut self, log: &Log) -> Result<(), AllocError> {
        let count = log.steps().len();
        for at in self.before.len()..count {
            self.add(choices_of(log, at))?;
        }
        Ok(())
    }
}
