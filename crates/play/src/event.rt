//! The events of a run, what its state is made of, and its options.
use crate::{Cause, Outcome, Workers};
use cuts::Cut;
use lp_base::Sequence;
use lpcc_case::{Point, Ray};
use nogoods::{NoGood, Piece};

/// A piece that a worker was given, with the number of draws before it.
#[derive(Drop)]
pub struct Ticket {
    /// The worker, counted from 0.
    pub worker: u32,
    /// The number of the draw, counted from 0.
    pub number: u64,
    /// The piece that was drawn.
    pub piece: Piece,
}

/// A piece that was set aside, since the walk that would solve it has no end within the limits.
#[derive(Drop)]
pub struct Aside {
    /// The number of its draw.
    pub ticket: u64,
    /// The piece.
    pub piece: Piece,
    /// Where its walk ended.
    pub cause: Cause,
}

/// A point of a piece, and a direction that stays in the piece and in which the cost falls.
pub struct Direction {
    pub piece: Piece,
    pub point: Point,
    pub ray: Ray,
}

/// By a call, which keeps the models of the functions small that own one.
impl Drop for Direction {
    fn drop(self) {
        let Direction {
            piece: _,
            point: _,
            ray: _,
        } = self;
    }
}

/// A verdict without its value.
#[derive(Clone, Copy, Debug, Drop, PartialEq, Eq)]
pub enum VerdictKind {
    Optimal,
    Infeasible,
    Unbounded,
}

/// One step of a run. Workers, lanes and draws are counted from 0.
#[derive(Drop)]
pub enum Event {
    /// A worker publishes a cut on its lane.
    Publish {
        lane: u32,
        cut: Cut,
    },
    /// A worker reads the item of this number on a lane.
    Read {
        worker: u32,
        lane: u32,
        place: u128,
    },
    /// A worker takes its turn at the incumbent, with a point or without one.
    Offer {
        worker: u32,
        point: Option<Point>,
    },
    /// A worker is given a piece.
    Draw {
        worker: u32,
        ticket: u64,
        piece: Piece,
    },
    /// The desk takes up a cut.
    Absorb {
        cut: Cut,
    },
    /// The desk derives a no-good from the steps of its log, over these hints.
    Learn {
        ng: NoGood,
        hints: Sequence<u64>,
    },
    /// A worker says what it found out about the piece of its ticket.
    Settle {
        worker: u32,
        ticket: u64,
        outcome: Outcome,
    },
    /// The desk comes to a verdict.
    Conclude {
        verdict: VerdictKind,
    },
}

/// Whether an event may happen.
#[derive(Clone, Copy, Debug, Drop, PartialEq, Eq)]
pub enum Lawful {
    /// It may, and it has happened.
    Yes,
    /// It may not, and nothing has changed.
    No,
}

/// Whether the cut of an outcome has a reason for each choice that it keeps.
#[derive(Clone, Copy, Debug, Drop, PartialEq, Eq)]
pub enum ShrinkMode {
    /// Each kept choice has a true reason why it cannot be dropped.
    Full,
    /// Cuts come as they are.
    Off,
}

/// The options of a run.
#[derive(Clone, Copy, Debug, Drop, PartialEq, Eq)]
pub struct Options {
    /// How many workers there are.
    pub workers: Workers,
    /// How many pieces may be drawn.
    pub pieces: u64,
    /// How many pivots a stage of a walk may make.
    pub pivots: u64,
    /// Whether cuts are shrunk.
    pub shrink: ShrinkMode,
}
