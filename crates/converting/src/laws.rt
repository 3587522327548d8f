//! What the definitions of a reading come to.
ghost use Rattle.std.specs.Prelude.{◌≡◌, List, Result, ℕ};
ghost use Rattle.cert2_text.specs.declared.cert2.AnyCert.{AnyCert as Certificate};
ghost use Rattle.converting.specs.declared.refusal.Refusal.{Refusal as Reason};
ghost use Rattle.converting.specs.Readings.{IsRead};

use cert2_text::{a_text_has_one_first_fault, a_text_spells_one, what_is_spelled_does_not_fail};

/// The bytes of an input are the cause of one reading at most.
pub fn a_certificate_alone_is_read_once()
    ensures { (bytes : List ℕ) (one other : Result Certificate Reason) → IsRead bytes one → IsRead bytes other → one ≡ other }
{
    a_text_spells_one();
    a_text_has_one_first_fault();
    what_is_spelled_does_not_fail();
}
