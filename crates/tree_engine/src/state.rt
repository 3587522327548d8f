//! The state of a run.
use crate::Node;
use lp_base::Sequence;
use lpcc_case::Point;
use probe::Probe;
use shrink::KnownPoints;

/// The nodes so far, the best point behind them, and what serves to shrink cuts.
#[derive(Drop)]
pub struct State {
    pub run: Sequence<Node>,
    pub best: Option<Point>,
    pub known: KnownPoints,
    pub probe: Probe,
}
