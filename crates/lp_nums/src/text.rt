//! Fractions as texts.

use crate::Frac;
use std::fmt;

/// The numerator, and behind a slash the denominator where that is not 1.
impl fmt::Display for Frac {
    ghost use Rattle.std.specs.Prelude.{Some};
    ghost use Rattle.lp_nums.specs.Texts.{fraction_text};

    ghost output = { λ f. Some (fraction_text f) };

    fn fmt<W: fmt::Write>(&self, f: &mut fmt::Formatter<W>) -> fmt::Result {
        let (num, den) = (self.num(), self.den());
        if den == 1 {
            return write!(f, "{num}");
        }
        write!(f, "{num}/{den}")
    }
}
