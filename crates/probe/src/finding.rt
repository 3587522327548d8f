//! What a dictionary of either width finds, before any test.

use crate::below::moved_along;
use general_simplex::{Coordinates, Feasibility, Multipliers, Optimum, Simplex};
use lpcc_case::Case;
use simplex_numbers::Number;
use std::alloc::{AllocError, Global};

/// What is wanted where the held constraints and the limit can be met.
#[derive(Clone, Copy)]
pub enum Aim {
    /// A point.
    Point,
    /// A point of least cost, with the multipliers of the cost.
    Least,
}

/// A question: the constraints that are to hold with equality, and the limit on the cost.
#[derive(Clone, Copy)]
pub struct Question<'a> {
    pub alloc: Global,
    pub case: &'a Case,
    pub held: &'a [u32],
    pub limit: Option<(i128, i64)>,
    pub aim: Aim,
}

/// What was found. Nothing is claimed of it.
#[derive(Drop)]
pub enum Finding {
    Cut(Multipliers),
    Point(Coordinates),
    Least(Coordinates, Multipliers),
    /// A number did not fit the dictionary.
    TooWide,
    Nothing,
}

fn takes_limit<N: Number>(simplex: &mut Simplex<N>, limit: Option<(i128, i64)>) -> bool {
    if simplex.has_limit(limit) {
        return true;
    }
    match limit {
        None => false,
        Some((z, d)) => simplex.set_limit(z, d),
    }
}

/// Puts the limit, on a new dictionary where the present one does not take it.
fn put_limit<N: Number>(
    simplex: &mut Simplex<N>,
    question: Question<'_>,
) -> Result<bool, AllocError> {
    if !simplex.has_overflowed() && takes_limit(simplex, question.limit) {
        return Ok(true);
    }
    *simplex = Simplex::of_case(question.alloc, question.case)?;
    Ok(takes_limit(simplex, question.limit))
}

fn find_along<N: Number>(
    simplex: &Simplex<N>,
    alloc: Global,
    col: usize,
    rise: bool,
) -> Result<Finding, AllocError> {
    let Some(from) = simplex.point(alloc)? else {
        return Ok(Finding::Nothing);
    };
    let Some(ray) = simplex.ray(alloc, col, rise)? else {
        return Ok(Finding::Nothing);
    };
    match moved_along(from, &ray)? {
        Some(further) => Ok(Finding::Point(further)),
        None => Ok(Finding::Nothing),
    }
}

fn find_point<N: Number>(
    simplex: &mut Simplex<N>,
    alloc: Global,
    end: Optimum,
) -> Result<Finding, AllocError> {
    match end {
        Optimum::Reached => match simplex.point(alloc)? {
            Some(point) => Ok(Finding::Point(point)),
            None => Ok(Finding::Nothing),
        },
        Optimum::Unbounded { col, rise } => find_along(simplex, alloc, col, rise),
        Optimum::Unknown => Ok(Finding::Nothing),
    }
}

fn find_least<N: Number>(simplex: &mut Simplex<N>, alloc: Global) -> Result<Finding, AllocError> {
    if simplex.optimise()? != Optimum::Reached {
        return Ok(Finding::Nothing);
    }
    let Some(point) = simplex.point(alloc)? else {
        return Ok(Finding::Nothing);
    };
    match simplex.multipliers_of_cost(alloc)? {
        Some(multipliers) => Ok(Finding::Least(point, multipliers)),
        None => Ok(Finding::Nothing),
    }
}

fn find_feasible<N: Number>(
    simplex: &mut Simplex<N>,
    alloc: Global,
    aim: Aim,
) -> Result<Finding, AllocError> {
    match aim {
        Aim::Point => {
            let end = simplex.enter_cost()?;
            find_point(simplex, alloc, end)
        },
        Aim::Least => find_least(simplex, alloc),
    }
}

fn find_held<N: Number>(
    simplex: &mut Simplex<N>,
    alloc: Global,
    aim: Aim,
) -> Result<Finding, AllocError> {
    let found = simplex.check()?;
    match found {
        Feasibility::Feasible => find_feasible(simplex, alloc, aim),
        Feasibility::Unknown => Ok(Finding::Nothing),
        _ => match simplex.multipliers(alloc, found)? {
            Some(multipliers) => Ok(Finding::Cut(multipliers)),
            None => Ok(Finding::Nothing),
        },
    }
}

fn find_once<N: Number>(
    simplex: &mut Simplex<N>,
    question: Question<'_>,
) -> Result<Finding, AllocError> {
    if !put_limit(simplex, question)? {
        return Ok(Finding::TooWide);
    }
    simplex.hold(question.held)?;
    let found = find_held(simplex, question.alloc, question.aim)?;
    if simplex.has_overflowed() {
        return Ok(Finding::TooWide);
    }
    Ok(found)
}

/// Asks a dictionary, and a new one of the same width where it finds nothing.
pub fn find<N: Number>(
    simplex: &mut Simplex<N>,
    question: Question<'_>,
) -> Result<Finding, AllocError> {
    match find_once(simplex, question)? {
        Finding::TooWide | Finding::Nothing => {
            *simplex = Simplex::of_case(question.alloc, question.case)?;
            find_once(simplex, question)
        },
        found => Ok(found),
    }
}
