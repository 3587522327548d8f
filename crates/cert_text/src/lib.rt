//! The text of a certificate, form 1: its one spelling, and reading it exactly, with the first fault
//! of a text that is none. The readers of lines and words serve other forms too.
#![tactic(auto)]

mod cert;
mod fault;
mod laws;
pub mod lines;
pub mod lists;
pub mod read;
pub mod rows;
pub mod split;
pub mod words;

pub use cert::{Cert, CertLine, CertPoint};
pub use fault::{CertFault, CertWhy};
pub use laws::{
    a_text_has_one_first_fault, a_text_spells_a_certificate_or_fails,
    a_text_spells_one_certificate, what_is_spelled_does_not_fail, what_is_written_is_spelled,
};
pub use read::read_cert;
