//! Laws of fractions: each is the contract of a call that does nothing.

ghost use Rattle.std.specs.Prelude.{◌≡◌, ℤ, pos, ◌*ℤ◌, ◌≤ℤ◌, unsigned_abs};
ghost use Rattle.std.specs.Int.{IsGcd};
ghost use Rattle.lp_nums.specs.Fractions.{Fraction, IsReduced, SameValue};

/// Dividing both numbers by their greatest common divisor gives lowest terms and keeps the value.
pub fn reducing_keeps_the_value()
    ensures { (n d a b g : ℤ) → pos 1 ≤ℤ d → pos 0 ≤ℤ g →
        IsGcd (unsigned_abs n) (unsigned_abs d) (unsigned_abs g) → a *ℤ g ≡ n → b *ℤ g ≡ d →
        IsReduced (record { num = a; den = b }) × SameValue (record { num = a; den = b }) (record { num = n; den = d }) }
{}

/// Two fractions in lowest terms that have one value are one fraction.
pub fn lowest_terms_are_unique()
    ensures { (f g : Fraction) → IsReduced f → IsReduced g → SameValue f g → f ≡ g }
{}
