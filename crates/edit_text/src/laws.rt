//! Laws of texts and scripts.
ghost use Rattle.std.specs.Prelude.{◌≡◌, ◌⊎◌, ℕ, List};
ghost use Rattle.edit_text.specs.declared.fault.ScriptWhy.{ScriptWhy};
ghost use Rattle.edit_text.specs.declared.script.Script.{Script};
ghost use Rattle.edit_text.specs.Texts.{Fails, Spells};

/// A text spells at most one script.
pub fn a_text_spells_one_script()
    ensures { (text : List ℕ) (one other : Script) → Spells text one → Spells text other → one ≡ other }
{}

/// A text has at most one first fault.
pub fn a_text_has_one_first_fault()
    ensures { (text : List ℕ) (m n : ℕ) (one other : ScriptWhy) →
        Fails text m one → Fails text n other → (m ≡ n) × (one ≡ other) }
{}

/// A text that spells a script has no fault.
pub fn what_is_spelled_does_not_fail()
    ensures { (text : List ℕ) (script : Script) (line : ℕ) (why : ScriptWhy) →
        Spells text script → Fails text line why → ⊥ }
{}

/// A text spells a script, or it has a first fault.
pub fn a_text_spells_a_script_or_fails()
    ensures { (text : List ℕ) →
        ((script : Script) × Spells text script) ⊎ ((line : ℕ) × (why : ScriptWhy) × Fails text line why) }
{}
