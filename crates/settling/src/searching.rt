//! The search over the pairs, as what is known of a case has it.
ghost use Rattle.std.specs.Prelude.{All, IfOk, IfSome};
ghost use Rattle.std.specs.Option.{option_copied};
ghost use Rattle.cuts.specs.Cuts.{Passes};
ghost use Rattle.play.specs.Points.{IsBest};
ghost use Rattle.own_order.specs.Searching.{IsTrueOf};

use cuts::Cut;
use lpcc_case::{Case, Point};
use own_order::{PairSearch, Stop};
use std::alloc::{AllocError, Global};

/// Adds a cut that passes to a list of such cuts.
pub fn push_known(case: &Case, cuts: &mut Vec<Cut>, cut: Cut) -> Result<(), AllocError>
    requires cuts { All (Passes case.now) cuts.old.items }
    requires passes { Passes case.now cut }
    ensures { All (Passes case.now) cuts.new.items }
{
    cuts.push(cut)?;
    Ok(())
}

/// Adds a cut that passes to a search.
pub fn add_known(case: &Case, search: &mut PairSearch, cut: Cut) -> Result<(), AllocError>
    requires found { IsTrueOf case.now search.old }
    requires passes { Passes case.now cut }
    ensures { IsTrueOf case.now search.new }
{
    search.add_cut(cut)
}

/// A search that has found nothing.
fn new_search(alloc: Global, case: &Case, seed: u64) -> Result<PairSearch, AllocError>
    ensures { IfOk result (IsTrueOf case.now) }
{
    let search = PairSearch::new(alloc, case, seed)?;
    Ok(search)
}

/// A search that has these cuts.
pub fn begun(alloc: Global, case: &Case, seed: u64, cuts: &[Cut]) -> Result<PairSearch, AllocError>
    requires { All (Passes case.now) cuts.now }
    ensures { IfOk result (IsTrueOf case.now) }
{
    let mut search = new_search(alloc, case, seed)?;
    for cut in cuts {
        add_known(case, &mut search, cut.copy(alloc)?)?;
    }
    Ok(search)
}

/// Offers the incumbent to the search, where there is one.
fn offer_best(
    alloc: Global,
    case: &Case,
    search: &mut PairSearch,
    incumbent: Option<&Point>,
) -> Result<(), AllocError>
    requires found { IsTrueOf case.now search.old }
    requires best { IsBest case.now (option_copied incumbent) }
    ensures { IsTrueOf case.now search.new }
{
    match incumbent {
        Some(point) => search.offer(case, point.copy(alloc)?),
        None => Ok(()),
    }
}

/// Goes on from the incumbent, and notes the places of the cuts that are found.
pub fn gone_on(
    alloc: Global,
    case: &Case,
    search: &mut PairSearch,
    incumbent: Option<&Point>,
    conflicts: u64,
    fresh: &mut Vec<usize>,
) -> Result<Stop, AllocError>
    requires found { IsTrueOf case.now search.old }
    requires best { IsBest case.now (option_copied incumbent) }
    ensures { IsTrueOf case.now search.new }
{
    offer_best(alloc, case, search, incumbent)?;
    let before = search.cuts().len();
    let stop = search.run(case, conflicts)?;
    for place in before..search.cuts().len() {
        fresh.push(place)?;
    }
    Ok(stop)
}

/// A copy of the cut at this place, if there is one.
pub fn copy_at(
    alloc: Global,
    case: &Case,
    search: &PairSearch,
    place: usize,
) -> Result<Option<Cut>, AllocError>
    requires { IsTrueOf case.now search.now }
    ensures { IfOk result (λ made. IfSome made (Passes case.now)) }
{
    match search.cuts().get(place) {
        Some(cut) => Ok(Some(cut.copy(alloc)?)),
        None => Ok(None),
    }
}
