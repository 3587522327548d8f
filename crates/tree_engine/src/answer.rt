//! What a search by branching answers.
use crate::{Node, Tree};
use cuts::{SpentAt, WideAt};
use lp_base::Sequence;
use lpcc_case::{Point, Ray};
use nogoods::{NoGood, Piece};

/// How long a search may be.
#[derive(Clone, Copy, Debug, PartialEq, Eq)]
pub struct BranchOptions {
    /// The most nodes that are solved and become a leaf or are split.
    pub nodes: u64,
    /// The most pivots in a stage of a solve.
    pub pivots: u64,
}

/// The answer of a search.
pub enum Branch {
    /// No feasible point is lower than the best one, and without one none is feasible, as the tree
    /// shows. It has so many nodes.
    Closed {
        best: Option<Point>,
        tree: Tree,
        nodes: u64,
    },
    /// From a point of the piece the ray can be followed without end, the cost falling. So many
    /// nodes were solved, the last one among them.
    Unbounded {
        piece: Piece,
        point: Point,
        ray: Ray,
        nodes: u64,
    },
    /// The next step of the walk of the piece leads to a wide dictionary.
    Overflow {
        piece: Piece,
        at: WideAt,
        run: Sequence<Node>,
    },
    /// A stage of the walk of the piece has made as many pivots as it may, and another one could
    /// follow.
    PivotsSpent {
        piece: Piece,
        at: SpentAt,
        run: Sequence<Node>,
    },
    /// As many nodes were made as may be, and the node of a path is left.
    NodesSpent {
        nodes: u64,
        left: NoGood,
        run: Sequence<Node>,
    },
}

/// By a call, which keeps the models of the functions small that own one.
impl Drop for Branch {
    fn drop(self) {
        match self {
            Branch::Closed {
                best: _,
                tree: _,
                nodes: _,
            } => {}
            Branch::Unbounded {
                piece: _,
                point: _,
                ray: _,
                nodes: _,
            } => {}
            Branch::Overflow {
                piece: _,
                at: _,
                run: _,
            } => {}
            Branch::PivotsSpent {
                piece: _,
                at: _,
                run: _,
            } => {}
            Branch::NodesSpent {
                nodes: _,
                left: _,
                run: _,
            } => {}
        }
    }
}
