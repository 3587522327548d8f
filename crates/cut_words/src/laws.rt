//! What the words of a cut say of it.
ghost use Rattle.std.specs.Prelude.{◌≡◌, ℕ, List};
ghost use Rattle.lpcc_case.specs.Instance.{Instance};
ghost use Rattle.cuts.specs.declared.cut.Cut.{Cut};
ghost use Rattle.cut_words.specs.Words.{AreWordsOf, IsInPlace};

/// Words are those of one cut at most, so that reading gives back the cut that was written.
pub fn words_are_of_one_cut()
    ensures { (a : Instance) (c d : Cut) (words : List ℕ) → IsInPlace a c → AreWordsOf a c words
        → IsInPlace a d → AreWordsOf a d words → c ≡ d }
{}
