//! What is learned from a conflict: the resolvent of the clauses that led to it in which one choice
//! of the last level is left (Marques-Silva and Sakallah, "GRASP: a search algorithm for
//! propositional satisfiability", 1999).
use crate::clauses::{Clauses, FIRST_BUMP};
use crate::trail::opposite;
use nogoods::Choice;
use std::alloc::AllocError;

/// Above it activities are scaled down.
const MOST_BUMP: u64 = 1 << 50;

/// The most conflicts that are settled before the next question.
const MOST_TURNS: u64 = 1_000_000;

/// What is left of a conflict.
#[derive(Drop)]
struct Resolvent {
    /// The one choice of the last level.
    last: Option<Choice>,
    /// The choices of lower levels. Those of level 0 are left out.
    lower: Vec<Choice>,
    /// The number of clauses that were resolved with it.
    steps: usize,
}

impl Clauses {
    /// Marks the pairs of a clause that are not marked. Those below the level go out; gives how many
    /// there are of the level.
    fn mark(
        &mut self,
        clause: usize,
        level: usize,
        lower: &mut Vec<Choice>,
    ) -> Result<usize, AllocError> {
        let mut count = 0_usize;
        if clause >= self.lists.len() {
            return Ok(0);
        }
        let list = self.lists[clause].as_slice();
        for choice in list {
            let mut state = self.trail.pair(choice.pair);
            if !state.seen {
                state.seen = true;
                state.activity = state.activity.saturating_add(self.bump);
                self.trail.set_pair(choice.pair, state);
                if state.level == level {
                    count = count.saturating_add(1);
                } else if state.level > 0 {
                    lower.push(*choice)?;
                }
            }
        }
        Ok(count)
    }

    /// Forgets the marks. Later conflicts count more.
    fn forget_marks(&mut self) {
        for state in self.trail.pairs.iter_mut() {
            state.seen = false;
        }
        self.bump = self.bump.saturating_add(self.bump / 16);
        if self.bump > MOST_BUMP {
            self.bump = FIRST_BUMP;
            for state in self.trail.pairs.iter_mut() {
                state.activity /= MOST_BUMP / FIRST_BUMP;
            }
        }
    }

    /// The marked choice of the level that comes last on the trail.
    fn last_marked(&self, level: usize, before: usize) -> Option<usize> {
        for back in 0..before {
            let at = before.wrapping_sub(back).wrapping_sub(1);
            let choice = self.trail.choices.get(at).copied()?;
            let state = self.trail.pair(choice.pair);
            if state.seen && state.level == level {
                return Some(at);
            }
        }
        None
    }

    /// Resolves the conflict with the reasons of its choices, the last one first, until one choice
    /// of the level is left.
    fn resolve(&mut self, conflict: usize, level: usize) -> Result<Resolvent, AllocError> {
        let mut lower = Vec::new(self.alloc);
        let mut count = self.mark(conflict, level, &mut lower)?;
        let mut at = self.trail.choices.len();
        let mut last = None;
        let mut steps = 0_usize;
        for _ in 0..self.trail.choices.len() {
            let Some(place) = self.last_marked(level, at) else {
                break;
            };
            at = place;
            let Some(choice) = self.trail.choices.get(at).copied() else {
                break;
            };
            if count <= 1 {
                last = Some(choice);
                break;
            }
            count = count.wrapping_sub(1);
            if let Some(reason) = self.trail.pair(choice.pair).reason {
                let more = self.mark(reason, level, &mut lower)?;
                count = count.saturating_add(more);
                steps = steps.saturating_add(1);
            }
        }
        self.forget_marks();
        Ok(Resolvent { last, lower, steps })
    }

    /// Takes back what a resolvent speaks against, and assumes what it forces.
    fn assume_resolvent(
        &mut self,
        conflict: usize,
        choice: Choice,
        lower: Vec<Choice>,
        steps: usize,
    ) -> Result<(), AllocError> {
        let level = self.trail.highest_level(lower.as_slice());
        let reason = if steps == 0 {
            conflict
        } else {
            let mut lower = lower;
            lower.push(choice)?;
            self.add(lower.as_slice())?
        };
        self.trail.backtrack(level);
        self.trail.assume(opposite(choice), Some(reason))
    }

    /// Learns from a clause that is in conflict.
    fn learn(&mut self, conflict: usize) -> Result<(), AllocError> {
        let level = match self.lists.get(conflict) {
            Some(list) => self.trail.highest_level(list.as_slice()),
            None => 0,
        };
        if level == 0 {
            self.refuted = true;
            return Ok(());
        }
        self.trail.backtrack(level);
        let Resolvent { last, lower, steps } = self.resolve(conflict, level)?;
        match last {
            Some(choice) => self.assume_resolvent(conflict, choice, lower, steps),
            None => Ok(()),
        }
    }

    /// Propagates and learns until no clause is in conflict, or all pieces are barred. False where
    /// too many turns were made.
    pub fn settle(&mut self) -> Result<bool, AllocError> {
        for _ in 0..MOST_TURNS {
            if self.refuted {
                return Ok(true);
            }
            match self.propagate()? {
                None => return Ok(true),
                Some(conflict) => self.learn(conflict)?,
            }
        }
        Ok(false)
    }
}
