//! The text of a certificate, written in its one spelling, and read back. The writers of lines serve
//! other forms too.
#![tactic(auto)]

mod round;
pub mod write;

pub use round::write_and_read;
pub use write::write_cert;
