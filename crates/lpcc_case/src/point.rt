//! Points and directions with whole numbers.
ghost use Rattle.std.specs.Prelude.{◌≡◌, IfOk};

use lp_base::Sequence;
use std::alloc::{AllocError, Global};

/// The point `x / d`, a number for each column over one denominator, with `z` the sum of the costs
/// times `x`.
pub struct Point {
    pub d: i64,
    pub x: Sequence<i64>,
    pub z: i128,
}

/// By a call, which keeps the models of the functions small that own one.
impl Drop for Point {
    fn drop(self) {
        let Point { d: _, x: _, z: _ } = self;
    }
}

impl Point {
    /// An equal point.
    pub fn copy(&self, alloc: Global) -> Result<Point, AllocError>
        ensures { IfOk result (λ made. made ≡ self.now) }
    {
        Ok(Point {
            d: self.d,
            x: self.x.copy(alloc)?,
            z: self.z,
        })
    }
}

/// A direction: how far each column goes.
#[derive(Drop)]
pub struct Ray {
    pub r: Sequence<i64>,
}
