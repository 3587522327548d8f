//! The command that writes a certificate in form 2, over a source and a sink.
#![tactic(auto)]

mod laws;
mod reading;
mod refusal;
mod running;

pub use laws::a_certificate_alone_is_read_once;
pub use refusal::Refusal;
pub use running::convert;
