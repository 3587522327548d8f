//! A search over the pairs by branching: the program of a path of choices is solved, and its node
//! is a leaf with a cut, or is split at a pair. A tree whose leaves' cuts hold shows its verdict.
#![tactic(auto)]

mod answer;
mod branching;
mod closing;
mod laws;
mod loose;
mod node;
mod paths;
mod state;
mod stop;
mod tree;
mod turn;
mod visit;

pub use answer::{Branch, BranchOptions};
pub use branching::{branch, root};
pub use laws::{direction_shows_unbounded, lower_best_keeps_a_tree, tree_shows_its_verdict};
pub use node::{Node, NodeEnd};
pub use paths::extended;
pub use tree::Tree;
