//! The steps of a log.
use lp_base::Sequence;
use nogoods::NoGood;

/// A no-good that is known, or one that follows, with its hints: the numbers, counted from 0, of
/// the earlier steps over which its unit propagation runs.
pub enum Step {
    Start(NoGood),
    Derived(NoGood, Sequence<u64>),
}

/// By a call, which keeps the models of the functions small that own one.
impl Drop for Step {
    fn drop(self) {
        match self {
            Step::Start(_) => {}
            Step::Derived(_, _) => {}
        }
    }
}
