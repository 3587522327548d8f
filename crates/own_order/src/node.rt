//! Nodes of the search.
use crate::Stop;
use cuts::Cut;
use lpcc_case::Point;
use nogoods::Choice;

/// What became of a node, the choices that are assumed.
#[derive(Drop)]
pub enum Node {
    /// Nothing below the best point is tight at the choices, and this is why.
    Cut(Cut),
    /// A feasible point below the best one, and a cut whose bound is its cost.
    Optimum(Point, Cut),
    /// A feasible point below the best one. How far the cost falls is not known.
    Lower(Point),
    /// A choice to decide on.
    Decide(Choice),
    /// A choice to decide on, since the question had no answer.
    Guess(Choice),
    /// There is nothing to decide on, and no answer.
    Stuck,
}
