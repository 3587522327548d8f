//! What holds of values with parts and of choices.
ghost use Rattle.std.specs.Prelude.{◌≤◌, ◌<ℤ◌, ℕ, ℤ, pos, Bool, List, length};
ghost use Rattle.std.specs.List.{AllByRecursion};
ghost use Rattle.orders.specs.Counts.{choose, IsChoiceOf, AreApart};
ghost use Rattle.orders.specs.Order.{IsLess};

/// The order of values with parts, each over a denominator above 0, is transitive.
pub fn order_is_transitive()
    ensures { (n : ℕ) (d e f : ℤ) (u v w : ℕ → ℤ) → pos 0 <ℤ d → pos 0 <ℤ e → pos 0 <ℤ f → IsLess n d u e v → IsLess n e v f w → IsLess n d u f w }
{}

/// Lists of n marks with k of them set that differ from each other are at most as many as the
/// choices of k of n things.
pub fn few_choices()
    ensures { (n k : ℕ) (lists : List (List Bool)) → AllByRecursion (IsChoiceOf n k) lists → AreApart lists → length lists ≤ choose n k }
{}
