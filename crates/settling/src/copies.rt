//! Copies of points.
ghost use Rattle.std.specs.Prelude.{◌≡◌, IfOk};
ghost use Rattle.std.specs.Option.{option_copied};

use lpcc_case::Point;
use std::alloc::{AllocError, Global};

/// An equal point, where there is one.
pub fn copy_best(alloc: Global, best: Option<&Point>) -> Result<Option<Point>, AllocError>
    ensures { IfOk result (λ made. made ≡ option_copied best.entry) }
{
    match best {
        Some(point) => Ok(Some(point.copy(alloc)?)),
        None => Ok(None),
    }
}
