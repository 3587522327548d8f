//! Laws of dictionaries without a premise on what exists: that there is a dictionary over one
//! denominator at each list of forms that is reached, that rows without a common divisor are
//! determined, and that a pivot is refused exactly where such a row is not narrow.
#![tactic(auto)]

ghost use Rattle.std.specs.Prelude.{◌≡◌, ◌≢◌, ◌<◌, ◌↔◌, ℕ, List, length, pos};
ghost use Rattle.lpcc_case.specs.Instance.{Instance};
ghost use Rattle.dict.specs.declared.fault.Wide.{Wide as Place};
ghost use Rattle.dict.specs.Equations.{Equation, IsMultiple, IsReduced, IsRow};
ghost use Rattle.dict.specs.Dictionaries.{Dictionary, IsDictionary, IsWide, entry_at, row_at};
ghost use Rattle.dict.specs.Forms.{Affine, AreIndependent, IsDictionaryAt, IsDictionaryOf, IsRowOf, IsWideDictionary, after_exchange, with_rows};
ghost use Rattle.dict_laws.specs.Reduced.{IsExchanged};

/// Two rows of one form over independent forms, both without a common divisor above 1, are equal.
pub fn reduced_row_is_determined()
    ensures { (n bound other : ℕ) (q m : Equation) (f : Affine) (g : ℕ → Affine) → AreIndependent n g → IsRow bound n q → IsReduced q
        → IsRow other n m → IsReduced m → IsRowOf q f g → IsRowOf m f g → q ≡ m }
{}

/// There is a dictionary over one denominator at the list of forms of each dictionary of a case. Each
/// row, times a whole number of at least 1, is that dictionary's row.
pub fn dictionary_over_one_denominator_exists()
    ensures { (a : Instance) (d : Dictionary) → IsDictionary a.columns d → IsDictionaryOf a d
        → (rows : List Equation) × IsDictionaryAt a (with_rows rows d)
        × ((i : ℕ) → i < length d.rows → IsMultiple (row_at d.rows i) (row_at rows i)) }
{}

/// After an exchange over an entry that is not zero there is one dictionary whose rows have no common
/// divisor above 1.
pub fn exchanged_dictionary_exists_once()
    ensures exists { (a : Instance) (row col : ℕ) (d : Dictionary) → IsDictionary a.columns d → IsDictionaryOf a d → row < length d.rows
        → col < length d.nonbasic → entry_at d row col ≢ pos 0 → (e : Dictionary) × IsExchanged a row col d e }
    ensures once { (a : Instance) (row col : ℕ) (d e t : Dictionary) → IsExchanged a row col d e → IsExchanged a row col d t → e ≡ t }
{}

/// A place is wide exactly where the dictionary after the exchange, each row without a common divisor
/// above 1, has a number that is not narrow. The dictionary over one denominator is then wide too.
pub fn wide_exactly_where_a_reduced_row_is()
    ensures exact { (a : Instance) (row col : ℕ) (d e : Dictionary) → IsDictionary a.columns d → IsDictionaryOf a d → row < length d.rows
        → col < length d.nonbasic → entry_at d row col ≢ pos 0 → IsExchanged a row col d e
        → ((w : Place) × IsWide row col d w) ↔ IsWideDictionary e }
    ensures one_denominator { (a : Instance) (row col : ℕ) (d : Dictionary) (w : Place) → IsDictionary a.columns d → IsDictionaryOf a d
        → row < length d.rows → col < length d.nonbasic → entry_at d row col ≢ pos 0 → IsWide row col d w
        → (rows : List Equation) × IsDictionaryAt a (with_rows rows (after_exchange row col d)) × IsWideDictionary (with_rows rows (after_exchange row col d)) }
{}
