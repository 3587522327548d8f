//! The best entry that was offered: passes exchange entries in turns, which a ticket lock orders,
//! and each learns the newest entry of a history that falls. The method is the ticket lock of Reed
//! and Kanodia (Synchronization with eventcounts and sequencers, 1979): a pass draws a ticket, and
//! its turn comes when as many turns have ended.
#![tactic(auto)]

mod calls;
mod entry;
mod laws;
mod passes;
mod points;
mod rule;
mod steps;
mod turn;

pub use entry::Entry;
pub use laws::{history_falls, newest_is_lowest, newest_is_not_above_the_offer};
pub use passes::{Best, BestPass};
pub use rule::{Turn, View};
