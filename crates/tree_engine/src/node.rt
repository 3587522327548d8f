//! Nodes of a run.
use cuts::Cut;
use lex_simplex::LpAnswer;
use lpcc_case::Point;
use nogoods::NoGood;

/// How a node ends.
pub enum NodeEnd {
    /// No point of its program is lower than the best one, by this cut.
    Leaf(Cut),
    /// It was split at a pair, since its program has this answer.
    Split(u32, LpAnswer),
}

/// By a call, which keeps the models of the functions small that own one.
impl Drop for NodeEnd {
    fn drop(self) {
        match self {
            NodeEnd::Leaf(_) => {}
            NodeEnd::Split(_, _) => {}
        }
    }
}

/// A node whose program was solved.
pub struct Node {
    /// The choices that its program has tight.
    pub path: NoGood,
    /// The best point behind the node.
    pub best: Option<Point>,
    pub end: NodeEnd,
}

/// By a call, which keeps the models of the functions small that own one.
impl Drop for Node {
    fn drop(self) {
        let Node {
            path: _,
            best: _,
            end: _,
        } = self;
    }
}
