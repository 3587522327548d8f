//! What holds of the history of any turns.
ghost use Rattle.std.specs.Prelude.{◌≡◌, ◌∷◌, true, false, List, Option, Some, All};
ghost use Rattle.best.specs.History.{history, newest, falls};

use crate::Entry;

/// Each entry of a history is lower than the one before it.
pub fn history_falls<T: Entry>()
    ensures { (turns : List (Option T)) → falls T.is_lower (history T.is_lower turns) ≡ true }
{}

/// The newest entry is lower than each earlier one.
pub fn newest_is_lowest<T: Entry>()
    ensures { (turns : List (Option T)) (x : T) (earlier : List T) →
        history T.is_lower turns ≡ x ∷ earlier → All (λ y. T.is_lower x y ≡ true) earlier }
{}

/// Behind a turn with an offer there is a newest entry, and the offer is not lower.
pub fn newest_is_not_above_the_offer<T: Entry>()
    ensures { (turns : List (Option T)) (offer : T) →
        (y : T) × (newest (history T.is_lower (Some offer ∷ turns)) ≡ Some y) × (T.is_lower offer y ≡ false) }
{}
