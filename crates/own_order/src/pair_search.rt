//! The search.
ghost use Rattle.std.specs.Prelude.{◌≡◌, if◌then◌else◌, IfOk, IfSome, IfNone, All, Contains, OnErr, OnOk, Some};
ghost use Rattle.std.specs.Option.{option_copied};
ghost use Rattle.cuts.specs.Cuts.{Passes};
ghost use Rattle.reasons.specs.Reasons.{IsActiveAgainst, IsLimit};
ghost use Rattle.shrink.specs.Shrinking.{IsShrunk};
ghost use Rattle.play.specs.Points.{IsBest, IsCandidate, lowered};
ghost use Rattle.own_order.specs.Searching.{IsAgainst, IsNode, IsTrueOf, Keeps, nothing, with_best, with_cut};

use crate::Stop;
use crate::against::{no_good, seems_active, shortest_against};
use crate::asking::node_at;
use crate::clauses::Clauses;
use crate::node::Node;
use cuts::Cut;
use lpcc_case::{Case, Point, lower};
use nogoods::{Choice, Piece};
use probe::Probe;
use shrink::{KnownPoints, Shrunk, shrink_by_probe, shrink_with_probe};
use std::alloc::{AllocError, Global};
use std::marker::Model;

/// The most questions without an answer.
const MOST_UNKNOWN: u64 = 200;

/// The most points in a row, each lower than the last, in whose pieces the probe has no least cost.
const MOST_LOWER: u64 = 3;

/// The most nodes before a conflict, beside four for each pair.
const MOST_NODES: u64 = 100;

/// A search that is kept between runs. Contracts see what it has found.
pub struct PairSearch {
    alloc: Global,
    best: Option<Point>,
    cuts: Vec<Cut>,
    /// The places of cuts from elsewhere that are not active yet.
    waiting: Vec<usize>,
    clauses: Clauses,
    probe: Probe,
    known: KnownPoints,
    unknown: u64,
    lower: u64,
}

/// By a call, which keeps the models of the functions small that own one.
impl Drop for PairSearch {
    fn drop(self) {
        let PairSearch {
            alloc: _,
            best: _,
            cuts: _,
            waiting: _,
            clauses: _,
            probe: _,
            known: _,
            unknown: _,
            lower: _,
        } = self;
    }
}

impl Model for PairSearch {
    ghost use Rattle.own_order.specs.Searching.{Found};

    ghost Value = { Found };

    ghost view = { λ s. record { best = s.best; cuts = s.cuts.items } };
}

/// What became of one turn.
#[derive(Clone, Copy)]
enum Turn {
    Went,
    Conflict,
    Stopped(Stop),
}

/// The most nodes of a run.
fn most_nodes(case: &Case, conflicts: u64) -> u64 {
    let pairs = case.pairs().len() as u64;
    let each = pairs.saturating_mul(4).saturating_add(MOST_NODES);
    conflicts.saturating_add(1).saturating_mul(each)
}

/// Adds the waiting cuts that have become active.
fn use_waiting(
    waiting: &mut Vec<usize>,
    cuts: &[Cut],
    limit: Option<&Point>,
    clauses: &mut Clauses,
) -> Result<(), AllocError> {
    let mut still = Vec::new(*waiting.allocator());
    for place in waiting.as_slice() {
        if let Some(cut) = cuts.get(*place) {
            if seems_active(cut, limit) {
                clauses.add(no_good(cut).choices())?;
            } else {
                still.push(*place)?;
            }
        }
    }
    *waiting = still;
    Ok(())
}

/// Whether the point is lower than the best one, where there is one.
fn is_lower(case: &Case, point: &Point, best: Option<&Point>) -> bool
    requires best { IsBest case.now (option_copied best) }
    requires point { IsCandidate case.now point.now }
    ensures { lowered (option_copied best.entry) (Some point.now) ≡ (if result then Some point.now else option_copied best.entry) }
{
    match best {
        Some(best) => lower(point, best),
        None => true,
    }
}

impl PairSearch {
    /// A search that has found nothing. Searches with other seeds begin with other sides and another
    /// order of pairs; seed 0 has side A first, and no pair before another.
    ///
    /// # Errors
    ///
    /// Want of memory alone.
    pub fn new(alloc: Global, case: &Case, seed: u64) -> Result<PairSearch, AllocError>
        ensures { IfOk result (λ s. s ≡ nothing) }
    {
        let mut clauses = Clauses::new(alloc, case.pairs().len())?;
        clauses.shuffle(seed);
        Ok(PairSearch {
            alloc,
            best: None,
            cuts: Vec::new(alloc),
            waiting: Vec::new(alloc),
            clauses,
            probe: Probe::of_case(alloc, case)?,
            known: KnownPoints::new(alloc),
            unknown: 0,
            lower: 0,
        })
    }

    /// The best point that was found or taken in.
    pub fn best(&self) -> Option<&Point>
        ensures { option_copied result ≡ self.now.best }
    {
        self.best.as_ref()
    }

    /// The probe that is asked, with its counts.
    pub fn probe(&self) -> &Probe {
        &self.probe
    }

    /// The cuts that were found or taken in, in that order.
    pub fn cuts(&self) -> &[Cut]
        ensures { result.now ≡ self.now.cuts }
    {
        self.cuts.as_slice()
    }

    /// A cut that bars the piece and is active against the limit, of fewest choices. None where no
    /// cut here does.
    pub fn cut_against(&self, case: &Case, piece: &Piece, limit: Option<&Point>) -> Option<&Cut>
        requires limit { IsLimit case.now (option_copied limit) }
        requires found { IsTrueOf case.now self.now }
        ensures against { IfSome (option_copied result) (λ c. Contains self.now.cuts c × IsAgainst piece.now (option_copied limit.entry) c) }
        ensures none { IfNone (option_copied result) (All (λ c. IsAgainst piece.now (option_copied limit.entry) c → ⊥) self.now.cuts) }
    {
        shortest_against(case, self.cuts.as_slice(), piece, limit)
    }

    /// Takes in a cut from elsewhere. It is used as soon as it is active against the best point.
    ///
    /// # Errors
    ///
    /// Want of memory alone.
    pub fn add_cut(&mut self, cut: Cut) -> Result<(), AllocError>
        ensures ok { OnOk result (self.new ≡ with_cut self.old cut) }
        ensures err { OnErr result (self.new ≡ self.old) }
    {
        if seems_active(&cut, self.best.as_ref()) {
            self.clauses.add(no_good(&cut).choices())?;
        } else {
            self.waiting.push(self.cuts.len())?;
        }
        self.cuts.push(cut)?;
        Ok(())
    }

    /// Takes in a feasible point from elsewhere, where it is lower than the best one.
    ///
    /// # Errors
    ///
    /// Want of memory alone.
    pub fn offer(&mut self, case: &Case, point: Point) -> Result<(), AllocError>
        requires found { IsTrueOf case.now self.old }
        requires point { IsCandidate case.now point }
        ensures best { self.new.best ≡ lowered self.old.best (Some point) }
        ensures cuts { self.new.cuts ≡ self.old.cuts }
    {
        if is_lower(case, &point, self.best.as_ref()) {
            self.set_best(case, point)
        } else {
            Ok(())
        }
    }

    /// Goes on to a lower point.
    fn set_best(&mut self, case: &Case, point: Point) -> Result<(), AllocError>
        requires found { IsTrueOf case.now self.old }
        requires point { IsCandidate case.now point }
        ensures found { IsTrueOf case.now self.new }
        ensures best { self.new ≡ with_best self.old point }
    {
        self.known.keep_lower(&point);
        self.best = Some(point);
        use_waiting(
            &mut self.waiting,
            self.cuts.as_slice(),
            self.best.as_ref(),
            &mut self.clauses,
        )
    }

    /// Adds a cut that is active against the best point.
    fn push_cut(&mut self, cut: Cut) -> Result<(), AllocError>
        ensures ok { OnOk result (self.new ≡ with_cut self.old cut) }
        ensures err { OnErr result (self.new ≡ self.old) }
    {
        self.clauses.add(no_good(&cut).choices())?;
        self.cuts.push(cut)?;
        Ok(())
    }

    /// Shrinks a cut that is active against the best point, and adds it.
    fn meet(&mut self, case: &Case, cut: Cut) -> Result<(), AllocError>
        requires found { IsTrueOf case.now self.old }
        requires passes { Passes case.now cut }
        requires active { IsActiveAgainst cut self.old.best }
        ensures found { IsTrueOf case.now self.new }
        ensures keeps { Keeps self.old self.new }
    {
        let best = self.best.as_ref();
        let cut = shrink_by_probe(
            self.alloc,
            case,
            cut,
            best,
            &mut self.known,
            &mut self.probe,
        )?;
        self.push_cut(cut)
    }

    /// Goes on to a point of least cost in its piece, and adds the cut whose bound is this cost.
    fn meet_optimum(&mut self, case: &Case, point: Point, cut: Cut) -> Result<(), AllocError>
        requires found { IsTrueOf case.now self.old }
        requires point { IsCandidate case.now point }
        requires passes { Passes case.now cut }
        requires active { IsActiveAgainst cut (Some point) }
        ensures found { IsTrueOf case.now self.new }
        ensures keeps { Keeps self.old self.new }
    {
        self.lower = 0;
        self.set_best(case, point)?;
        self.meet(case, cut)
    }

    /// Goes on to a lower point in whose piece the least cost is not known.
    fn meet_lower(&mut self, case: &Case, point: Point) -> Result<Turn, AllocError>
        requires found { IsTrueOf case.now self.old }
        requires point { IsCandidate case.now point }
        ensures found { IsTrueOf case.now self.new }
        ensures keeps { Keeps self.old self.new }
    {
        self.set_best(case, point)?;
        self.lower = self.lower.saturating_add(1);
        if self.lower > MOST_LOWER {
            return Ok(Turn::Stopped(Stop::Unbounded));
        }
        Ok(Turn::Went)
    }

    /// Decides without an answer.
    fn go_without(&mut self, choice: Choice) -> Result<Turn, AllocError>
        ensures { self.new ≡ self.old }
    {
        self.unknown = self.unknown.saturating_add(1);
        if self.unknown > MOST_UNKNOWN {
            return Ok(Turn::Stopped(Stop::Unknown));
        }
        self.clauses.trail.decide(choice)?;
        Ok(Turn::Went)
    }

    /// Takes what became of a node.
    fn take(&mut self, case: &Case, node: Node) -> Result<Turn, AllocError>
        requires found { IsTrueOf case.now self.old }
        requires node { IsNode case.now self.old.best node }
        ensures found { IsTrueOf case.now self.new }
        ensures keeps { Keeps self.old self.new }
    {
        match node {
            Node::Cut(cut) => {
                self.meet(case, cut)?;
                Ok(Turn::Conflict)
            },
            Node::Optimum(point, cut) => {
                self.meet_optimum(case, point, cut)?;
                Ok(Turn::Conflict)
            },
            Node::Lower(point) => self.meet_lower(case, point),
            Node::Decide(choice) => {
                self.clauses.trail.decide(choice)?;
                Ok(Turn::Went)
            },
            Node::Guess(choice) => self.go_without(choice),
            Node::Stuck => Ok(Turn::Stopped(Stop::Unknown)),
        }
    }

    /// Asks at the assumed choices, and takes what becomes of it.
    fn turn(&mut self, case: &Case) -> Result<Turn, AllocError>
        requires found { IsTrueOf case.now self.old }
        ensures found { IsTrueOf case.now self.new }
        ensures keeps { Keeps self.old self.new }
    {
        let best = self.best.as_ref();
        let trail = &self.clauses.trail;
        let node = node_at(
            self.alloc,
            case,
            best,
            &mut self.probe,
            &mut self.known,
            trail,
        )?;
        self.take(case, node)
    }

    /// Propagates, and tells why the search stops, where it does.
    fn settle(&mut self) -> Result<Option<Stop>, AllocError>
        ensures { self.new ≡ self.old }
    {
        if !self.clauses.settle()? {
            return Ok(Some(Stop::Unknown));
        }
        if self.clauses.refuted {
            return Ok(Some(Stop::Refuted));
        }
        Ok(None)
    }

    /// Goes on until it has met as many conflicts, or stops before. It may be called again.
    ///
    /// # Errors
    ///
    /// Want of memory alone. What was found stays.
    pub fn run(&mut self, case: &Case, conflicts: u64) -> Result<Stop, AllocError>
        requires found { IsTrueOf case.now self.old }
        ensures found { IsTrueOf case.now self.new }
        ensures keeps { Keeps self.old self.new }
    {
        let mut met = 0_u64;
        for _ in 0..most_nodes(case, conflicts) {
            if let Some(stop) = self.settle()? {
                return Ok(stop);
            }
            if met >= conflicts {
                return Ok(Stop::Conflicts);
            }
            match self.turn(case)? {
                Turn::Went => {},
                Turn::Conflict => met = met.saturating_add(1),
                Turn::Stopped(stop) => return Ok(stop),
            }
        }
        Ok(Stop::Conflicts)
    }

    /// Shrinks a cut over the points that are known here, with the probe, and gives a reason for
    /// each choice that stays. What was found does not change.
    ///
    /// # Errors
    ///
    /// Want of memory alone.
    pub fn shrink(
        &mut self,
        case: &Case,
        cut: Cut,
        limit: Option<&Point>,
        pivots: u64,
    ) -> Result<Shrunk, AllocError>
        requires passes { Passes case.now cut }
        requires limit { IsLimit case.now (option_copied limit) }
        requires active { IsActiveAgainst cut (option_copied limit) }
        ensures shrunk { IfOk result (IsShrunk case.now pivots (option_copied limit.entry) cut) }
        ensures found { self.new ≡ self.old }
    {
        shrink_with_probe(
            self.alloc,
            case,
            cut,
            limit,
            pivots,
            &mut self.known,
            &mut self.probe,
        )
    }
}
