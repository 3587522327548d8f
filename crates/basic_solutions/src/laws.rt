//! What holds of directions.
ghost use Rattle.std.specs.Prelude.{◌≡◌, ◌<◌, ◌<ℤ◌, ℕ, ℤ, pos, Bool, List, length};
ghost use Rattle.nogoods.specs.declared.choice.Choice.{Choice};
ghost use Rattle.lpcc_case.specs.Cases.{IsCase};
ghost use Rattle.lpcc_case.specs.Instance.{Instance};
ghost use Rattle.lpcc_case.specs.Points.{Recedes};
ghost use Rattle.dict.specs.Dictionaries.{Dictionary, entry_at, form_at};
ghost use Rattle.dict.specs.Exchanges.{turn};
ghost use Rattle.walks.specs.Bases.{ArePassed, MayGo, NoneBlocks};
ghost use Rattle.walks.specs.Duals.{IsPlaced};
ghost use Rattle.walks.specs.Steps.{IsSized};
ghost use Rattle.basic_solutions.specs.Solutions.{IsDirection, number_in};

/// Where in the last stage no form leaves, the direction of the form that enters recedes.
pub fn direction_recedes()
    ensures { (a : Instance) (tight : List Choice) (down : Bool) (e : ℕ) (d : Dictionary) (r : List ℤ) → IsCase a → IsSized a d → IsPlaced a d → ArePassed a tight (length a.constraints) d → e < length d.nonbasic → MayGo a tight down (form_at d.nonbasic e) → NoneBlocks a tight down e d → turn down (entry_at d (length a.constraints) e) <ℤ pos 0 → length r ≡ a.columns → IsDirection d down e (number_in r) → Recedes a tight r }
{}
