//! The text of a certificate of form 2, which shares lists of multipliers and drops lines, and the
//! reader of either form.
#![tactic(auto)]

mod cert2;
mod laws2;
mod lists2;
mod read2;
mod rows2;

pub use cert2::{AnyCert, Cert2, Cert2Line, counted};
pub use laws2::{
    a_text_has_one_first_fault, a_text_spells_one, a_text_spells_or_fails,
    what_is_spelled_does_not_fail, what_is_written_is_spelled,
};
pub use read2::read_any;
