//! Acceptance of certificates, with cuts tested in many threads.
#![tactic(auto)]

mod lines1;
mod many;
mod testing;

pub use many::check_many;
