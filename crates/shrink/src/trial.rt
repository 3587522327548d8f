//! A trial to drop a choice: what the program of the other choices shows.
ghost use Rattle.std.specs.Prelude.{◌≡◌, ◌≤ℤ◌, pos, IfOk, IfSome, OnOk, length};
ghost use Rattle.std.specs.Option.{option_copied};
ghost use Rattle.lpcc_case.specs.Pieces.{NamesPairs};
ghost use Rattle.lex_simplex.specs.Answers.{IsAnswer, IsPointCutOf};
ghost use Rattle.walks.specs.Ends.{IsPointAt};
ghost use Rattle.reasons.specs.Reasons.{IsLimit};
ghost use Rattle.shrink.specs.Trials.{IsTrial};

use cuts::{Cut, Reason};
use lex_simplex::LpAnswer;
use lpcc_case::{Case, Point};
use nogoods::NoGood;
use probe::is_under;

/// What the program of some choices shows.
#[derive(Drop)]
pub enum Trial {
    /// It is infeasible, or bounded by the limit: its cut has its choices among these.
    Dropped(Cut),
    /// The choice that is not among them is needed.
    Kept(Reason),
}

/// The least cost is that of the point, and the bound of the cut.
fn of_optimum(
    case: &Case,
    tight: &NoGood,
    limit: Option<&Point>,
    pivots: u64,
    point: Point,
    cut: Cut,
) -> Trial
    requires limit { IsLimit case.now (option_copied limit) }
    requires point { IsPointAt case.now tight.now point }
    requires cut { IsPointCutOf case.now tight.now point cut }
    ensures { IsTrial case.now pivots (option_copied limit.entry) tight.now result }
{
    if is_under(case, &point, limit) {
        Trial::Kept(Reason::Below(point))
    } else {
        Trial::Dropped(cut)
    }
}

/// What the answer for the program of these choices shows.
pub fn of_answer(
    case: &Case,
    tight: &NoGood,
    limit: Option<&Point>,
    pivots: u64,
    answer: LpAnswer,
) -> Trial
    requires limit { IsLimit case.now (option_copied limit) }
    requires answer { IsAnswer case.now tight.now pivots answer }
    ensures { IsTrial case.now pivots (option_copied limit.entry) tight.now result }
{
    match answer {
        LpAnswer::Infeasible(cut) => Trial::Dropped(cut),
        LpAnswer::Optimum(point, cut) => of_optimum(case, tight, limit, pivots, point, cut),
        LpAnswer::Unbounded(point, ray) => Trial::Kept(Reason::Unbounded(point, ray)),
        LpAnswer::Wide(at) => Trial::Kept(Reason::Wide(at)),
        LpAnswer::Spent(at) => Trial::Kept(Reason::Spent(at)),
    }
}
