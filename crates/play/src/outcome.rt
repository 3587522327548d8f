//! What is found out about a drawn piece.
use cuts::{Cut, Reason, SpentAt, WideAt};
use lp_base::Sequence;
use lpcc_case::{Point, Ray};
use nogoods::Choice;

/// Why a piece was set aside.
#[derive(Drop)]
pub enum Cause {
    /// The walk of the piece ends at a wide dictionary.
    Wide(WideAt),
    /// A stage of the walk of the piece spends its pivots.
    Spent(SpentAt),
}

/// How a drawn piece is settled.
#[derive(Drop)]
pub enum Outcome {
    /// By a cut of the worker's own that bars the piece, with the reason why each of its choices
    /// is kept, and with the best point that the worker knows.
    Cut {
        cut: Cut,
        kept: Sequence<(Choice, Reason)>,
        best: Option<Point>,
    },
    /// By a cut that bars the piece and that another worker published: the item of this number,
    /// counted from 0, on the lane of that worker.
    Barred {
        lane: u32,
        place: u128,
        cut: Cut,
        best: Option<Point>,
    },
    /// By a point of the piece and a direction in which its cost falls without end.
    Unbounded {
        point: Point,
        ray: Ray,
    },
    /// Not: the walk of the piece ends at a wide dictionary.
    Wide(WideAt),
    /// Not: a stage of the walk of the piece spends its pivots.
    Spent(SpentAt),
}
