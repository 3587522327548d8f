//! Logs of no-goods, each a start or derived from earlier ones by unit propagation.
#![tactic(auto)]

mod assumed;
mod hint_run;
mod laws;
mod log;
mod step;

pub use hint_run::{NoGoods, closes};
pub use laws::{
    closed_run_bars_no_more, closed_run_bars_nothing_lower, closed_run_bars_only_empty_pieces,
    log_with_an_empty_step_bars_every_piece, steps_bar_no_more_than_starts,
    steps_bar_nothing_lower, steps_bar_only_empty_pieces,
};
pub use log::{Log, follows};
pub use step::Step;
