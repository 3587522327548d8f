//! Points as entries.
ghost use Rattle.std.specs.Prelude.{◌≡◌};

use crate::Entry;
use lpcc_case::{Point, lower};
use std::alloc::{AllocError, Global};

impl Entry for Point {
    ghost use Rattle.best.specs.PointOrder.{is_lower_point};
    ghost use Rattle.best.specs.PointLaws.{lower_self, lower_trans};

    ghost is_lower = { is_lower_point };

    ghost irreflexive = { lower_self };

    ghost transitive = { lower_trans };

    /// Exactly where both denominators are at least 1 and `z / d` is below that of the other.
    fn below(&self, other: &Point) -> bool {
        self.d >= 1 && other.d >= 1 && lower(self, other)
    }

    fn copy(&self, alloc: Global) -> Result<Point, AllocError> {
        Point::copy(self, alloc)
    }
}
