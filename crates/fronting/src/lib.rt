//! The commands that print the deck of a linear complementarity problem or of a bilevel problem, and
//! how the text of such a problem is read from a source.
#![tactic(auto)]

mod laws;
mod reading;
mod refusal;
mod running;

pub use laws::a_text_is_read_once;
pub use reading::{read_bilevel_from, read_lcp_from};
pub use refusal::{FrontRefusal, give_front_refusal};
pub use running::{print_bilevel, print_lcp};
