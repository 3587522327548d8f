//! Points that are known, each with the sides that are loose there.
ghost use Rattle.std.specs.Prelude.{◌≡◌, ◌++◌, ◌∷◌, [], IfOk, IfSome, OnErr, OnOk, filter};
ghost use Rattle.std.specs.Option.{option_copied};
ghost use Rattle.lpcc_case.specs.Pieces.{NamesPairs};
ghost use Rattle.reasons.specs.Reasons.{IsLimit};
ghost use Rattle.shrink.specs.Known.{is_lower, newest};
ghost use Rattle.probe.specs.Answers.{IsPointBelow};

use crate::sides::{have_common, loose_sides, sides_of};
use lpcc_case::{Case, Point, lower};
use nogoods::NoGood;
use probe::is_point_below;
use std::alloc::{AllocError, Global};
use std::marker::Model;

/// As many points as are kept.
const MOST_KNOWN: usize = 4000;

/// A point with the sides that are loose there.
pub struct KnownPoint {
    point: Point,
    loose: Vec<u64>,
}

/// By a call, which keeps the models of the functions small that own one.
impl Drop for KnownPoint {
    fn drop(self) {
        let KnownPoint { point: _, loose: _ } = self;
    }
}

/// Points that were found in earlier solves, the oldest first. Each use of one is tested, so they
/// may be points of another case, and need not be below any limit.
pub struct KnownPoints {
    held: Vec<KnownPoint>,
}

/// By a call, which keeps the models of the functions small that own one.
impl Drop for KnownPoints {
    fn drop(self) {
        let KnownPoints { held: _ } = self;
    }
}

impl Model for KnownPoints {
    ghost use Rattle.std.specs.Prelude.{List, map};
    ghost use Rattle.lpcc_case.specs.declared.point.Point.{Point};

    ghost Value = { List Point };

    ghost use Rattle.shrink.specs.Known.{point_of};

    ghost view = { λ k. map point_of k.held.items };
}

/// Whether the point is lower than the other one, and both have a denominator.
fn is_lower(point: &Point, other: &Point) -> bool
    ensures { result ≡ is_lower other.now point.now }
{
    point.d >= 1 && other.d >= 1 && lower(point, other)
}

impl KnownPoints {
    /// No points. It takes no memory.
    pub fn new(alloc: Global) -> KnownPoints
        ensures { result ≡ [] }
    {
        KnownPoints {
            held: Vec::new(alloc),
        }
    }

    /// Keeps a copy of the point. The oldest point gives way where there are 4,000.
    ///
    /// # Errors
    ///
    /// Want of memory alone; nothing changes.
    pub fn keep(&mut self, case: &Case, point: &Point) -> Result<(), AllocError>
        ensures ok { OnOk result (self.new ≡ newest (self.old ++ point.now ∷ [])) }
        ensures err { OnErr result (self.new ≡ self.old) }
    {
        let alloc = *self.held.allocator();
        let copy = point.copy(alloc)?;
        let loose = loose_sides(alloc, case, point)?;
        self.held.push(KnownPoint { point: copy, loose })?;
        if self.held.len() > MOST_KNOWN {
            self.held.remove(0);
        }
        Ok(())
    }

    /// Drops the points that are not lower than the limit.
    pub fn keep_lower(&mut self, limit: &Point)
        ensures { self.new ≡ filter (is_lower limit.now) self.old }
    {
        self.held.retain(|known| is_lower(&known.point, limit));
    }

    /// Whether a known point is tight at each of the choices, or seems so. Nothing is claimed of it.
    pub(crate) fn may_lie_in(&self, case: &Case, tight: &NoGood) -> Result<bool, AllocError> {
        let wanted = sides_of(*self.held.allocator(), case, tight)?;
        Ok(
            self.held.iter().rev().any(|known| !have_common(
                known.loose.as_slice(),
                wanted.as_slice(),
            )),
        )
    }

    /// A copy of the newest known point that meets all constraints, is tight at each of the choices
    /// and is lower than the limit, where there is one.
    pub fn point_below(
        &self,
        case: &Case,
        tight: &NoGood,
        limit: Option<&Point>,
    ) -> Result<Option<Point>, AllocError>
        requires named { NamesPairs case.now tight.now }
        requires limit { IsLimit case.now (option_copied limit) }
        ensures { IfOk result (λ found. IfSome found (IsPointBelow case.now (option_copied limit.entry) tight.now)) }
    {
        let alloc = *self.held.allocator();
        let wanted = sides_of(alloc, case, tight)?;
        for known in self.held.iter().rev() {
            if !have_common(known.loose.as_slice(), wanted.as_slice())
                && is_point_below(case, tight, limit, &known.point)
            {
                return Ok(Some(known.point.copy(alloc)?));
            }
        }
        Ok(None)
    }
}
