//! Trees over pairs.
use cuts::Cut;

/// A binary tree over pairs with a cut at each leaf.
#[derive(Drop)]
pub enum Tree {
    /// A cut whose choices are on the way to this leaf.
    Leaf(Cut),
    /// A pair, and what is below each of its sides.
    Split {
        pair: u32,
        a: Box<Tree>,
        b: Box<Tree>,
    },
}
