//! What is written of a verdict.

/// What stands behind the two comment lines of a verdict.
#[derive(Clone, Copy, Debug, PartialEq, Eq)]
pub enum Style {
    /// Nothing.
    Brief,
    /// The certificate, in form 1.
    One,
    /// The certificate, in form 2.
    Two,
}
