//! The trail: the choices that are assumed, with their levels and reasons.
use nogoods::{Choice, Side};
use std::alloc::{AllocError, Global};

/// What is known of a pair.
#[derive(Clone, Copy)]
pub struct PairState {
    /// The side that is assumed.
    pub side: Option<Side>,
    /// The side that was assumed last.
    pub saved: Side,
    /// The number of decisions up to the side.
    pub level: usize,
    /// The clause that forced the side. None for a decision.
    pub reason: Option<usize>,
    pub activity: u64,
    /// Whether a conflict that is being analysed names the pair.
    pub seen: bool,
}

const NOTHING: PairState = PairState {
    side: None,
    saved: Side::A,
    level: 0,
    reason: None,
    activity: 0,
    seen: false,
};

/// The pairs, and the assumed choices in their order. A level begins with each decision.
pub struct Trail {
    pub pairs: Vec<PairState>,
    pub choices: Vec<Choice>,
    /// The length of the trail before each decision.
    decisions: Vec<usize>,
    /// The number of choices whose clauses were looked at.
    pub propagated: usize,
}

/// By a call, which keeps the models of the functions small that own one.
impl Drop for Trail {
    fn drop(self) {
        let Trail {
            pairs: _,
            choices: _,
            decisions: _,
            propagated: _,
        } = self;
    }
}

/// The other side of the pair.
pub fn opposite(choice: Choice) -> Choice {
    Choice {
        pair: choice.pair,
        side: match choice.side {
            Side::A => Side::B,
            Side::B => Side::A,
        },
    }
}

impl Trail {
    /// Nothing is assumed of so many pairs.
    pub fn new(alloc: Global, pairs: usize) -> Result<Trail, AllocError> {
        let mut states = Vec::with_capacity(alloc, pairs)?;
        for _ in 0..pairs {
            states.push(NOTHING)?;
        }
        Ok(Trail {
            pairs: states,
            choices: Vec::new(alloc),
            decisions: Vec::new(alloc),
            propagated: 0,
        })
    }

    #[inline(always)]
    pub fn pair(&self, p: u32) -> PairState {
        let p = p as usize;
        if p < self.pairs.len() {
            self.pairs[p]
        } else {
            NOTHING
        }
    }

    #[inline(always)]
    pub fn set_pair(&mut self, p: u32, state: PairState) {
        let p = p as usize;
        if p < self.pairs.len() {
            self.pairs[p] = state;
        }
    }

    /// The number of decisions.
    pub fn level(&self) -> usize {
        self.decisions.len()
    }

    pub fn is_assumed(&self, choice: Choice) -> bool {
        self.pair(choice.pair).side == Some(choice.side)
    }

    pub fn is_open(&self, choice: Choice) -> bool {
        self.pair(choice.pair).side.is_none()
    }

    /// The highest level of the choices.
    pub fn highest_level(&self, choices: &[Choice]) -> usize {
        let mut level = 0;
        for choice in choices {
            level = level.max(self.pair(choice.pair).level);
        }
        level
    }

    /// Assumes a choice at the present level.
    pub fn assume(&mut self, choice: Choice, reason: Option<usize>) -> Result<(), AllocError> {
        let level = self.level();
        let mut state = self.pair(choice.pair);
        state.side = Some(choice.side);
        state.saved = choice.side;
        state.level = level;
        state.reason = reason;
        self.set_pair(choice.pair, state);
        self.choices.push(choice)?;
        Ok(())
    }

    /// Assumes a choice at a new level.
    pub fn decide(&mut self, choice: Choice) -> Result<(), AllocError> {
        self.decisions.push(self.choices.len())?;
        self.assume(choice, None)
    }

    fn take_back_last(&mut self) {
        if let Some(choice) = self.choices.pop() {
            let mut state = self.pair(choice.pair);
            state.side = None;
            self.set_pair(choice.pair, state);
        }
    }

    fn take_back_to(&mut self, length: usize) {
        for _ in length..self.choices.len() {
            self.take_back_last();
        }
        self.propagated = self.propagated.min(length);
    }

    /// Takes back the choices above a level.
    pub fn backtrack(&mut self, level: usize) {
        for _ in level..self.level() {
            if let Some(length) = self.decisions.pop() {
                self.take_back_to(length);
            }
        }
    }

    /// The assumed choices, the pairs ascending.
    pub fn sorted(&self, alloc: Global) -> Result<Vec<Choice>, AllocError> {
        let mut list = Vec::with_capacity(alloc, self.choices.len())?;
        for (p, state) in self.pairs.iter().enumerate() {
            if let Some(side) = state.side
                && let Ok(pair) = u32::try_from(p)
            {
                list.push(Choice { pair, side })?;
            }
        }
        Ok(list)
    }
}
