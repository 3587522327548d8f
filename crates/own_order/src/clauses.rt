//! Clauses over the pairs: no-goods, none of which may hold, and unit propagation.
use crate::trail::{Trail, opposite};
use nogoods::{Choice, Side};
use std::alloc::{AllocError, Global};

/// Clauses, with the trail over them.
pub struct Clauses {
    pub alloc: Global,
    /// The choices of each clause.
    pub lists: Vec<Vec<Choice>>,
    /// For each choice the clauses that name it.
    named_in: Vec<Vec<usize>>,
    /// The number of clauses that were looked at since they were added.
    looked_at: usize,
    pub trail: Trail,
    /// What a conflict adds to the activity of a pair.
    pub bump: u64,
    pub refuted: bool,
}

/// By a call, which keeps the models of the functions small that own one.
impl Drop for Clauses {
    fn drop(self) {
        let Clauses {
            alloc: _,
            lists: _,
            named_in: _,
            looked_at: _,
            trail: _,
            bump: _,
            refuted: _,
        } = self;
    }
}

/// What a clause says under the trail.
#[derive(Clone, Copy)]
enum Standing {
    /// All its choices are assumed.
    Conflict,
    /// All but this one are assumed, and its pair is open.
    Unit(Choice),
    Rests,
}

fn standing_of(trail: &Trail, list: &[Choice]) -> Standing {
    let mut open = None;
    for choice in list {
        if !trail.is_assumed(*choice) {
            if !trail.is_open(*choice) || open.is_some() {
                return Standing::Rests;
            }
            open = Some(*choice);
        }
    }
    match open {
        None => Standing::Conflict,
        Some(choice) => Standing::Unit(choice),
    }
}

/// The place of a choice in lists over all choices.
fn place_of(choice: Choice) -> usize {
    let place = (choice.pair as usize).wrapping_mul(2);
    match choice.side {
        Side::A => place,
        Side::B => place.wrapping_add(1),
    }
}

/// What a conflict adds at the beginning. Activities of a start are below it.
pub const FIRST_BUMP: u64 = 1 << 10;

impl Clauses {
    /// No clauses over so many pairs.
    pub fn new(alloc: Global, pairs: usize) -> Result<Clauses, AllocError> {
        let mut named_in = Vec::new(alloc);
        for _ in 0..pairs {
            named_in.push(Vec::new(alloc))?;
            named_in.push(Vec::new(alloc))?;
        }
        Ok(Clauses {
            alloc,
            lists: Vec::new(alloc),
            named_in,
            looked_at: 0,
            trail: Trail::new(alloc, pairs)?,
            bump: FIRST_BUMP,
            refuted: false,
        })
    }

    fn name(&mut self, choice: Choice, clause: usize) -> Result<(), AllocError> {
        let place = place_of(choice);
        if place < self.named_in.len() {
            self.named_in[place].push(clause)?;
        }
        Ok(())
    }

    /// Adds a clause, and gives its number. It has no effect before the next propagation.
    pub fn add(&mut self, choices: &[Choice]) -> Result<usize, AllocError> {
        let number = self.lists.len();
        for choice in choices {
            self.name(*choice, number)?;
        }
        self.lists.push(Vec::from_slice(self.alloc, choices)?)?;
        Ok(number)
    }

    /// Assumes what the clause forces. True where it is in conflict.
    fn look_at(&mut self, clause: usize) -> Result<bool, AllocError> {
        if clause >= self.lists.len() {
            return Ok(false);
        }
        match standing_of(&self.trail, self.lists[clause].as_slice()) {
            Standing::Conflict => Ok(true),
            Standing::Unit(choice) => {
                self.trail.assume(opposite(choice), Some(clause))?;
                Ok(false)
            },
            Standing::Rests => Ok(false),
        }
    }

    /// Looks at the clauses that were added. Some where one is in conflict.
    fn look_at_added(&mut self) -> Result<Option<usize>, AllocError> {
        for clause in self.looked_at..self.lists.len() {
            self.looked_at = clause;
            if self.look_at(clause)? {
                return Ok(Some(clause));
            }
        }
        self.looked_at = self.lists.len();
        Ok(None)
    }

    fn named_at(&self, place: usize, k: usize) -> Option<usize> {
        self.named_in.get(place)?.get(k).copied()
    }

    fn count_named(&self, place: usize) -> usize {
        match self.named_in.get(place) {
            Some(clauses) => clauses.len(),
            None => 0,
        }
    }

    /// Looks at the clauses that name the choice. Some where one is in conflict.
    fn look_at_named(&mut self, choice: Choice) -> Result<Option<usize>, AllocError> {
        let place = place_of(choice);
        for k in 0..self.count_named(place) {
            if let Some(clause) = self.named_at(place, k)
                && self.look_at(clause)?
            {
                return Ok(Some(clause));
            }
        }
        Ok(None)
    }

    /// Propagates. Some where a clause is in conflict.
    pub fn propagate(&mut self) -> Result<Option<usize>, AllocError> {
        if let Some(clause) = self.look_at_added()? {
            return Ok(Some(clause));
        }
        for _ in 0..self.trail.pairs.len() {
            let Some(choice) = self.trail.choices.get(self.trail.propagated).copied() else {
                return Ok(None);
            };
            if let Some(clause) = self.look_at_named(choice)? {
                return Ok(Some(clause));
            }
            self.trail.propagated = self.trail.propagated.saturating_add(1);
        }
        Ok(None)
    }

    /// Other sides and another order of pairs for each seed but 0, by the multiplier of Knuth's
    /// generator "MMIX".
    pub fn shuffle(&mut self, seed: u64) {
        if seed == 0 {
            return;
        }
        let mut state = seed;
        for pair in self.trail.pairs.iter_mut() {
            state = state
                .wrapping_mul(6_364_136_223_846_793_005)
                .wrapping_add(1_442_695_040_888_963_407);
            pair.activity = (state >> 33) % FIRST_BUMP;
            pair.saved = if (state >> 50) % 2 == 0 {
                Side::A
            } else {
                Side::B
            };
        }
    }
}
