//! What shrinking gives.
use cuts::{Cut, Reason};
use lp_base::Sequence;
use nogoods::Choice;

/// A cut, and for each of its choices, in their order, why it cannot be dropped.
#[derive(Drop)]
pub struct Shrunk {
    pub cut: Cut,
    pub kept: Sequence<(Choice, Reason)>,
}
