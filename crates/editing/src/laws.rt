//! What the definitions of inputs come to.
ghost use Rattle.std.specs.Prelude.{◌≡◌, ℕ, List, Result};
ghost use Rattle.editing.specs.Inputs.{Edits, IsRead};
ghost use Rattle.editing.specs.declared.refusal.EditRefusal.{EditRefusal as Reason};

use command::an_input_begins_with_one_case;
use edit_text::{
    a_text_has_one_first_fault, a_text_spells_one_script, what_is_spelled_does_not_fail,
};

/// What is read of a deck and the script behind it is determined by the bytes.
pub fn edits_are_read_once()
    ensures { (limit : ℕ) (bytes : List ℕ) (x y : Result Edits Reason) →
        IsRead limit bytes x → IsRead limit bytes y → x ≡ y }
{
    an_input_begins_with_one_case();
    a_text_spells_one_script();
    a_text_has_one_first_fault();
    what_is_spelled_does_not_fail();
}
