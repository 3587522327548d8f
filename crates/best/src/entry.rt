//! What is exchanged.
ghost use Rattle.std.specs.Prelude.{◌≡◌, ◌↔◌, Bool, true, false, IfOk, IsTrue};

use std::alloc::{AllocError, Global};

/// An entry with a strict order, and a copy.
pub trait Entry: Drop {
    ghost is_lower: { Self → Self → Bool };

    /// Whether this entry is below the other.
    fn below(&self, other: &Self) -> bool
        ensures { result ≡ is_lower self.now other.now };

    /// An equal entry.
    fn copy(&self, alloc: Global) -> Result<Self, AllocError>
        ensures { IfOk result (λ x. x ≡ self.now) };

    ghost irreflexive: { (x : Self) → is_lower x x ≡ false };

    ghost transitive: { (x y z : Self) → is_lower x y ≡ true → is_lower y z ≡ true → is_lower x z ≡ true };
}
