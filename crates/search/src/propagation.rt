//! Unit propagation over no-goods of a log in any order, and the hints that it needs.
ghost use Rattle.std.specs.Prelude.{◌≡◌, ℕ, All, true};
ghost use Rattle.nogoods.specs.Choices.{pairs_ascend};
ghost use Rattle.derivation.specs.HintRuns.{NamesBelow};
ghost use Rattle.derivation.specs.Logs.{no_goods};

use crate::prefix::choices_of;
use crate::resolve::mark;
use derivation::{Log, NoGoods};
use nogoods::{Choice, Side};
use std::alloc::{AllocError, Global};

/// A choice that is assumed since a no-good leaves no other.
#[derive(Clone, Copy)]
struct Implied {
    pair: u32,
    by: u64,
}

/// The sides that are assumed, by pair, and what was implied, in its order.
struct Run {
    sides: Vec<Option<Side>>,
    implied: Vec<Implied>,
}

/// By a call, which keeps the models of the functions small that own one.
impl Drop for Run {
    fn drop(self) {
        let Run {
            sides: _,
            implied: _,
        } = self;
    }
}

/// What the sides that are assumed make of a no-good.
enum Unit {
    /// Each of its choices is assumed.
    Closed,
    /// Each but this one.
    Implies(Choice),
    /// The other side of one is assumed.
    Passed,
    /// Two of its pairs are open.
    Open,
}

/// What one pass leaves: the no-good that closes the run, or those that are open.
#[derive(Drop)]
enum Pass {
    Closed(u64),
    Open(Vec<u64>),
}

/// The choices of the no-good of this number, none where the log has no such step.
pub(crate) fn choices_or_none(log: &Log, at: usize) -> &[Choice]
    ensures ascending { pairs_ascend result.now ≡ true }
    ensures named { (pairs : ℕ) → All (NamesBelow pairs) (no_goods log.now) → NamesBelow pairs result.now }
{
    if at < log.count() {
        return choices_of(log, at);
    }
    &[]
}

impl Run {
    fn of(alloc: Global, pairs: u32, choices: &[Choice]) -> Result<Run, AllocError> {
        let sides = vec![in alloc; None; pairs as usize]?;
        let mut run = Run {
            sides,
            implied: Vec::new(alloc),
        };
        for choice in choices {
            run.assume(*choice);
        }
        Ok(run)
    }

    fn side_at(&self, pair: u32) -> Option<Side> {
        match self.sides.get(pair as usize) {
            Some(side) => *side,
            None => None,
        }
    }

    fn assume(&mut self, choice: Choice) {
        let at = choice.pair as usize;
        if at < self.sides.len() {
            self.sides[at] = Some(choice.side);
        }
    }

    fn imply(&mut self, left: Choice, by: u64) -> Result<(), AllocError> {
        self.assume(left.other());
        self.implied.push(Implied {
            pair: left.pair,
            by,
        })?;
        Ok(())
    }

    fn unit(&self, choices: &[Choice]) -> Unit {
        let mut left = None;
        for choice in choices {
            match self.side_at(choice.pair) {
                Some(side) if side == choice.side => {}
                Some(_) => return Unit::Passed,
                None if left.is_some() => return Unit::Open,
                None => left = Some(*choice),
            }
        }
        match left {
            Some(choice) => Unit::Implies(choice),
            None => Unit::Closed,
        }
    }

    fn pass(&mut self, alloc: Global, log: &Log, waiting: &[u64]) -> Result<Pass, AllocError> {
        let mut open = Vec::new(alloc);
        for hint in waiting {
            match self.unit(choices_or_none(log, *hint as usize)) {
                Unit::Closed => return Ok(Pass::Closed(*hint)),
                Unit::Implies(choice) => self.imply(choice, *hint)?,
                Unit::Passed => {}
                Unit::Open => open.push(*hint)?,
            }
        }
        Ok(Pass::Open(open))
    }

    /// The hints that the run needs, in their order.
    fn used(&self, alloc: Global, log: &Log, last: u64) -> Result<Vec<u64>, AllocError> {
        let mut needed = vec![in alloc; false; self.sides.len()]?;
        mark(&mut needed, choices_or_none(log, last as usize));
        let mut hints = Vec::new(alloc);
        hints.push(last)?;
        for implied in self.implied.iter().rev() {
            if is_marked(needed.as_slice(), implied.pair as usize) {
                mark(&mut needed, choices_or_none(log, implied.by as usize));
                hints.push(implied.by)?;
            }
        }
        hints.reverse();
        Ok(hints)
    }
}

/// Whether there is a mark at this place.
pub(crate) fn is_marked(marks: &[bool], at: usize) -> bool {
    match marks.get(at) {
        Some(marked) => *marked,
        None => false,
    }
}

/// Hints among these, in an order in which they close the run of the choices. None where they do
/// not.
pub(crate) fn propagate(
    alloc: Global,
    log: &Log,
    pairs: u32,
    choices: &[Choice],
    hints: &[u64],
) -> Result<Option<Vec<u64>>, AllocError> {
    let mut run = Run::of(alloc, pairs, choices)?;
    let mut waiting = Vec::from_slice(alloc, hints)?;
    loop {
        match run.pass(alloc, log, waiting.as_slice())? {
            Pass::Closed(last) => return Ok(Some(run.used(alloc, log, last)?)),
            Pass::Open(open) if open.len() < waiting.len() => waiting = open,
            Pass::Open(_) => return Ok(None),
        }
    }
}
