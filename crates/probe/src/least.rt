//! The least cost at some choices.
ghost use Rattle.std.specs.Prelude.{◌≡◌, IfOk, IfSome};
ghost use Rattle.std.specs.Option.{option_copied};
ghost use Rattle.lpcc_case.specs.Pieces.{NamesPairs};
ghost use Rattle.reasons.specs.Reasons.{IsLimit};
ghost use Rattle.probe.specs.declared.answer.Least.TheVariants.{Unknown};
ghost use Rattle.probe.specs.Answers.{IsLeast, IsPointBelow};

use crate::below::tested_point;
use crate::finding::{Aim, Finding};
use crate::tested_cuts::tested_cut;
use crate::{Least, Probe};
use general_simplex::{Coordinates, Multipliers};
use lpcc_case::{Case, Point};
use nogoods::NoGood;
use std::alloc::{AllocError, Global};

/// The point with the cut of these multipliers, where it is active against this very point.
fn tested_best(
    alloc: Global,
    case: &Case,
    tight: &NoGood,
    limit: Option<&Point>,
    point: Point,
    found: Multipliers,
) -> Result<Option<Least>, AllocError>
    requires { IsPointBelow case.now (option_copied limit) tight.now point }
    ensures { IfOk result (λ made. IfSome made (IsLeast case.now (option_copied limit.entry) tight.now)) }
{
    match tested_cut(alloc, case, tight, Some(&point), found)? {
        Some(cut) => Ok(Some(Least::Best(point, cut))),
        None => Ok(None),
    }
}

fn tested_least(
    alloc: Global,
    case: &Case,
    tight: &NoGood,
    limit: Option<&Point>,
    found: Coordinates,
    multipliers: Multipliers,
) -> Result<Option<Least>, AllocError>
    requires named { NamesPairs case.now tight.now }
    requires limit { IsLimit case.now (option_copied limit) }
    ensures { IfOk result (λ made. IfSome made (IsLeast case.now (option_copied limit.entry) tight.now)) }
{
    match tested_point(case, tight, limit, found) {
        Some(point) => tested_best(alloc, case, tight, limit, point, multipliers),
        None => Ok(None),
    }
}

impl Probe {
    fn drop_least(&mut self) -> Least
        ensures { result ≡ Unknown }
    {
        self.dropped = self.dropped.saturating_add(1);
        Least::Unknown
    }

    /// Asks for a point of least cost that meets all constraints, is tight at each of the choices
    /// and is lower than the limit, where there is one. What is answered has passed its test; a
    /// finding that fails it is dropped.
    ///
    /// # Errors
    ///
    /// Want of memory alone; the next question is answered as ever.
    pub fn least(
        &mut self,
        case: &Case,
        tight: &NoGood,
        limit: Option<&Point>,
    ) -> Result<Least, AllocError>
        requires named { NamesPairs case.now tight.now }
        requires limit { IsLimit case.now (option_copied limit) }
        ensures { IfOk result (IsLeast case.now (option_copied limit.entry) tight.now) }
    {
        match self.find(case, tight, limit, Aim::Least)? {
            Finding::Cut(found) => match tested_cut(self.alloc, case, tight, limit, found)? {
                Some(cut) => Ok(Least::Nothing(cut)),
                None => Ok(self.drop_least()),
            },
            Finding::Least(point, found) => {
                match tested_least(self.alloc, case, tight, limit, point, found)? {
                    Some(least) => Ok(least),
                    None => Ok(self.drop_least()),
                }
            },
            Finding::Point(_) | Finding::TooWide | Finding::Nothing => Ok(Least::Unknown),
        }
    }
}
