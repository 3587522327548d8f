//! Questions to the probe at a node.
ghost use Rattle.std.specs.Prelude.{◌≡◌, IfOk, IfSome, IsTrue, Some};
ghost use Rattle.std.specs.Option.{option_copied};
ghost use Rattle.lpcc_case.specs.Pieces.{NamesPairs};
ghost use Rattle.cuts.specs.Cuts.{Passes};
ghost use Rattle.reasons.specs.Reasons.{IsActiveAgainst, IsLimit};
ghost use Rattle.probe.specs.Answers.{IsAnswer, IsLeast};
ghost use Rattle.play.specs.Points.{IsCandidate};
ghost use Rattle.own_order.specs.Searching.{IsNode};

use crate::node::Node;
use crate::trail::Trail;
use cuts::Cut;
use lpcc_case::{Case, Point, is_complementary, is_of, meets};
use nogoods::{Choice, NoGood, Side};
use probe::{Answer, Least, Probe};
use shrink::KnownPoints;
use std::alloc::{AllocError, Global};

/// Whether the point is a feasible one of the case.
pub fn is_feasible(case: &Case, point: &Point) -> bool
    ensures { IsTrue result → IsCandidate case.now point.now }
{
    is_of(case, point) && meets(case, point) && is_complementary(case, point)
}

/// The no-good of choices that name pairs. None where they do not, or where their pairs do not
/// ascend.
fn no_good_of(alloc: Global, case: &Case, choices: &[Choice]) -> Result<Option<NoGood>, AllocError>
    ensures { IfOk result (λ made. IfSome made (λ ng. NamesPairs case.now ng)) }
{
    let count = case.pairs().len();
    if !choices.iter().all(|choice| (choice.pair as usize) < count) {
        return Ok(None);
    }
    NoGood::from_choices(alloc, choices)
}

/// Whether both members of the pair are off zero where the probe stands.
fn is_off_zero(case: &Case, probe: &Probe, pair: u32) -> bool {
    !probe.is_tight(
        case,
        Choice {
            pair,
            side: Side::A,
        },
    ) && !probe.is_tight(
        case,
        Choice {
            pair,
            side: Side::B,
        },
    )
}

/// The choice that the probe's place speaks against most: of the open pairs with both members off
/// zero there the most active one, with the side that was assumed last.
fn decision(case: &Case, probe: &Probe, trail: &Trail) -> Option<Choice> {
    let mut best = None;
    let mut most = 0;
    for (p, state) in trail.pairs.iter().enumerate() {
        if state.side.is_none()
            && (best.is_none() || state.activity > most)
            && let Ok(pair) = u32::try_from(p)
            && is_off_zero(case, probe, pair)
        {
            most = state.activity;
            best = Some(Choice {
                pair,
                side: state.saved,
            });
        }
    }
    best
}

/// The most active open pair, with the side that was assumed last.
fn guess(trail: &Trail) -> Option<Choice> {
    let mut best = None;
    let mut most = 0;
    for (p, state) in trail.pairs.iter().enumerate() {
        if state.side.is_none()
            && (best.is_none() || state.activity > most)
            && let Ok(pair) = u32::try_from(p)
        {
            most = state.activity;
            best = Some(Choice {
                pair,
                side: state.saved,
            });
        }
    }
    best
}

/// The side of a pair: the one that is assumed, or one that is zero where the probe stands.
fn side_of(case: &Case, probe: &Probe, trail: &Trail, pair: u32) -> Side {
    match trail.pair(pair).side {
        Some(side) => side,
        None
            if probe.is_tight(
                case,
                Choice {
                    pair,
                    side: Side::A,
                },
            ) => Side::A,
        None => Side::B,
    }
}

/// A choice for each pair.
fn full_choices(
    alloc: Global,
    case: &Case,
    probe: &Probe,
    trail: &Trail,
) -> Result<Vec<Choice>, AllocError> {
    let mut list = Vec::with_capacity(alloc, trail.pairs.len())?;
    for p in 0..trail.pairs.len() {
        if let Ok(pair) = u32::try_from(p) {
            list.push(Choice {
                pair,
                side: side_of(case, probe, trail, pair),
            })?;
        }
    }
    Ok(list)
}

/// The node of a point that is lower than the limit, where the probe has no least cost.
fn lower_node(case: &Case, limit: Option<&Point>, point: Point) -> Node
    ensures { IsNode case.now (option_copied limit.entry) result }
{
    if is_feasible(case, &point) {
        Node::Lower(point)
    } else {
        Node::Stuck
    }
}

/// The node of a point of least cost in its piece, with the cut whose bound is this cost.
fn optimum_node(case: &Case, limit: Option<&Point>, point: Point, cut: Cut) -> Node
    requires passes { Passes case.now cut }
    requires active { IsActiveAgainst cut (Some point) }
    ensures { IsNode case.now (option_copied limit.entry) result }
{
    if is_feasible(case, &point) {
        Node::Optimum(point, cut)
    } else {
        Node::Stuck
    }
}

/// The node of the answer to the question for a least cost.
fn node_of_least(
    case: &Case,
    tight: &NoGood,
    limit: Option<&Point>,
    point: Point,
    least: Least,
) -> Node
    requires { IsLeast case.now (option_copied limit) tight.now least }
    ensures { IsNode case.now (option_copied limit.entry) result }
{
    match least {
        Least::Nothing(cut) => Node::Cut(cut),
        Least::Best(best, cut) => optimum_node(case, limit, best, cut),
        Least::Unknown => lower_node(case, limit, point),
    }
}

/// The node of a point at which no open pair has both members off zero: its piece is optimised.
fn node_of_piece(
    alloc: Global,
    case: &Case,
    limit: Option<&Point>,
    probe: &mut Probe,
    trail: &Trail,
    point: Point,
) -> Result<Node, AllocError>
    requires { IsLimit case.now (option_copied limit) }
    ensures { IfOk result (IsNode case.now (option_copied limit.entry)) }
{
    let choices = full_choices(alloc, case, probe, trail)?;
    let Some(tight) = no_good_of(alloc, case, choices.as_slice())? else {
        return Ok(lower_node(case, limit, point));
    };
    let least = probe.least(case, &tight, limit)?;
    Ok(node_of_least(case, &tight, limit, point, least))
}

/// The node of a point that is tight at the assumed choices.
fn node_of_point(
    alloc: Global,
    case: &Case,
    limit: Option<&Point>,
    probe: &mut Probe,
    known: &mut KnownPoints,
    trail: &Trail,
    point: Point,
) -> Result<Node, AllocError>
    requires { IsLimit case.now (option_copied limit) }
    ensures { IfOk result (IsNode case.now (option_copied limit.entry)) }
{
    known.keep(case, &point)?;
    match decision(case, probe, trail) {
        Some(choice) => Ok(Node::Decide(choice)),
        None => node_of_piece(alloc, case, limit, probe, trail, point),
    }
}

/// The node of a question without an answer.
fn unanswered_node(case: &Case, limit: Option<&Point>, trail: &Trail) -> Node
    ensures { IsNode case.now (option_copied limit.entry) result }
{
    match guess(trail) {
        Some(choice) => Node::Guess(choice),
        None => Node::Stuck,
    }
}

/// Asks the probe for a point that is tight at the assumed choices and lower than the limit.
pub fn node_at(
    alloc: Global,
    case: &Case,
    limit: Option<&Point>,
    probe: &mut Probe,
    known: &mut KnownPoints,
    trail: &Trail,
) -> Result<Node, AllocError>
    requires { IsLimit case.now (option_copied limit) }
    ensures { IfOk result (IsNode case.now (option_copied limit.entry)) }
{
    let choices = trail.sorted(alloc)?;
    let Some(tight) = no_good_of(alloc, case, choices.as_slice())? else {
        return Ok(unanswered_node(case, limit, trail));
    };
    match probe.ask(case, &tight, limit)? {
        Answer::Cut(cut) => Ok(Node::Cut(cut)),
        Answer::Point(point) => node_of_point(alloc, case, limit, probe, known, trail, point),
        Answer::Unknown => Ok(unanswered_node(case, limit, trail)),
    }
}
