//! The text of a certificate of form 2, written in its one spelling.
#![tactic(auto)]

mod write2;

pub use write2::write_cert2;
