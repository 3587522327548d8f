//! A certificate of form 1 in form 2.
#![tactic(auto)]

mod hinting;
mod laws;
mod lists;
mod making;
mod sharing;

pub use laws::{
    migrations_are_accepted_alike, migrations_count_alike, migrations_keep_their_form,
    migrations_say_the_same,
};
pub use making::migrate;
