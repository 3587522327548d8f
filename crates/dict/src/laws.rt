//! What holds of the dictionaries of a case, whatever way they were reached.
ghost use Rattle.std.specs.Prelude.{◌≡◌, ◌≢◌, ◌<◌, ℕ, List, length, pos};
ghost use Rattle.lpcc_case.specs.Instance.{Instance};
ghost use Rattle.dict.specs.declared.fault.Wide.{Wide as Place};
ghost use Rattle.dict.specs.Equations.{Equation, IsMultiple};
ghost use Rattle.dict.specs.Dictionaries.{Dictionary, IsDictionary, IsWide, row_at, entry_at, nonbasic_after};
ghost use Rattle.dict.specs.Forms.{AreIndependent, IsDictionaryAt, IsDictionaryOf, IsRenumbered, IsRenumbering, IsWideDictionary, affine_at, after_exchange, with_rows};

/// Each row, times a whole number of at least 1, is that of the dictionary at its list of nonbasic
/// forms.
pub fn row_is_that_at_its_list()
    ensures { (a : Instance) (places : ℕ) (d : Dictionary) (rows : List Equation) → IsDictionary places d → IsDictionaryOf a d → IsDictionaryAt a (with_rows rows d) → (i : ℕ) → i < length d.rows → IsMultiple (row_at d.rows i) (row_at rows i) }
{}

/// Where a pivot answers that a row would be wide, the dictionary at the list after the exchange is
/// wide.
pub fn wide_pivot_leads_to_wide_dictionary()
    ensures { (a : Instance) (places row col : ℕ) (d : Dictionary) (w : Place) (rows : List Equation) → IsDictionary places d → IsDictionaryOf a d → IsWide row col d w → IsDictionaryAt a (with_rows rows (after_exchange row col d)) → IsWideDictionary (with_rows rows (after_exchange row col d)) }
{}

/// An exchange over an entry that is not zero keeps the nonbasic forms independent.
pub fn exchange_keeps_independence()
    ensures { (a : Instance) (places row col : ℕ) (d : Dictionary) → IsDictionary places d → IsDictionaryOf a d → row < length d.rows → col < length d.nonbasic → entry_at d row col ≢ pos 0 → AreIndependent (length (nonbasic_after row col d)) (affine_at a (nonbasic_after row col d)) }
{}

/// The dictionary at a list of nonbasic forms is one and the same whatever way it was reached: two of
/// them, at lists of the same forms in any order, have the same numbers.
pub fn dictionary_is_determined()
    ensures { (a : Instance) (places rows back : ℕ → ℕ) (d t : Dictionary) → IsDictionaryAt a d → IsDictionaryAt a t → IsRenumbering places t.nonbasic d.nonbasic → IsRenumbering rows t.basic d.basic → IsRenumbering back d.basic t.basic → IsRenumbered places rows d t }
{}
