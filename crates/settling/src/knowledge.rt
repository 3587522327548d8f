//! What is known of a case while its pieces are settled.
ghost use Rattle.std.specs.Prelude.{◌≡◌, All, Contains, IfNone, IfOk, IfSome, Some};
ghost use Rattle.std.specs.Option.{option_copied};
ghost use Rattle.lpcc_case.specs.Instance.{Instance};
ghost use Rattle.cuts.specs.Cuts.{Passes};
ghost use Rattle.reasons.specs.Reasons.{IsActiveAgainst};
ghost use Rattle.shrink.specs.Shrinking.{IsShrunk};
ghost use Rattle.own_order.specs.Searching.{IsAgainst};
ghost use Rattle.play.specs.Points.{IsBest, IsCandidate, lowered};
ghost use Rattle.settling.specs.Known.{IsTrueKnowledge, nothing_known, searched};

use crate::copies::copy_best;
use crate::searching::{add_known, begun, copy_at, gone_on, push_known};
use cuts::Cut;
use lpcc_case::{Case, Point, lower};
use nogoods::Piece;
use own_order::{PairSearch, Stop};
use play::Ticket;
use shrink::{KnownPoints, Shrunk, shrink_with};
use std::alloc::{AllocError, Global};
use std::marker::Model;

/// So many pieces of a run are settled before a search over the pairs begins, by all its workers
/// together. Most small decks need no more.
pub const PLAIN_PIECES: u64 = 8;

/// What is known of a case while its pieces are settled: the incumbent, points at which choices are
/// loose, and a search over the pairs in an order of its own, which begins when some pieces of the
/// run have been drawn. Contracts see the incumbent, the cuts that wait for the search, and what the
/// search has found.
pub struct Knowledge {
    alloc: Global,
    /// The search of another worker has another seed.
    seed: u64,
    incumbent: Option<Point>,
    points: KnownPoints,
    cuts: Vec<Cut>,
    search: Option<PairSearch>,
    /// The conflicts that the search was allowed.
    conflicts: u64,
    /// Whether the search goes on no more, and whether it has come to an end at which its clauses
    /// bar every piece.
    is_over: bool,
    is_refuted: bool,
    /// The places of the cuts that were found and not taken yet.
    fresh: Vec<usize>,
}

/// By a call, which keeps the models of the functions small that own one.
impl Drop for Knowledge {
    fn drop(self) {
        let Knowledge {
            alloc: _,
            seed: _,
            incumbent: _,
            points: _,
            cuts: _,
            search: _,
            conflicts: _,
            is_over: _,
            is_refuted: _,
            fresh: _,
        } = self;
    }
}

impl Model for Knowledge {
    ghost use Rattle.settling.specs.Known.{Known};

    ghost Value = { Known };

    ghost view = { λ k. record { incumbent = k.incumbent; cuts = k.cuts.items; found = k.search } };
}

/// The lower of the incumbent and a point that was found, the incumbent where they cost the same.
fn improved(case: &Case, incumbent: Option<Point>, found: Point) -> Option<Point>
    requires old { IsBest case.now incumbent }
    requires found { IsCandidate case.now found }
    ensures value { result ≡ lowered incumbent (Some found) }
    ensures best { IsBest case.now result }
{
    let Some(old) = incumbent else {
        return Some(found);
    };
    if lower(&found, &old) {
        Some(found)
    } else {
        Some(old)
    }
}

impl Knowledge {
    /// Nothing is known, of whatever case. It takes no memory. Workers with other seeds search in
    /// other orders.
    pub fn new(alloc: Global, seed: u64) -> Knowledge
        ensures value { result ≡ nothing_known }
        ensures known { (a : Instance) → IsTrueKnowledge a result }
    {
        Knowledge {
            alloc,
            seed,
            incumbent: None,
            points: KnownPoints::new(alloc),
            cuts: Vec::new(alloc),
            search: None,
            conflicts: 0,
            is_over: false,
            is_refuted: false,
            fresh: Vec::new(alloc),
        }
    }

    /// The best point so far.
    pub fn incumbent(&self) -> Option<&Point>
        ensures { option_copied result ≡ self.now.incumbent }
    {
        self.incumbent.as_ref()
    }

    /// An equal best point.
    pub fn copy_incumbent(&self, alloc: Global) -> Result<Option<Point>, AllocError>
        ensures { IfOk result (λ made. made ≡ self.now.incumbent) }
    {
        copy_best(alloc, self.incumbent())
    }

    /// Takes a feasible point as the incumbent, where it is lower than the one so far.
    pub fn improve(&mut self, case: &Case, point: Point)
        requires known { IsTrueKnowledge case.now self.old }
        requires point { IsCandidate case.now point }
        ensures lowered { self.new.incumbent ≡ lowered self.old.incumbent (Some point) }
        ensures known { IsTrueKnowledge case.now self.new }
    {
        self.incumbent = improved(case, self.incumbent.take(), point);
    }

    /// Takes in a cut that passes, as one of another worker.
    ///
    /// # Errors
    ///
    /// Want of memory alone.
    pub fn learn(&mut self, case: &Case, cut: Cut) -> Result<(), AllocError>
        requires known { IsTrueKnowledge case.now self.old }
        requires passes { Passes case.now cut }
        ensures incumbent { self.new.incumbent ≡ self.old.incumbent }
        ensures known { IsTrueKnowledge case.now self.new }
    {
        if let Some(search) = &mut self.search {
            return add_known(case, search, cut);
        }
        push_known(case, &mut self.cuts, cut)
    }

    /// Takes in a copy of a cut that settles a piece, where the search has not begun.
    pub(crate) fn keep_cut(&mut self, case: &Case, cut: &Cut) -> Result<(), AllocError>
        requires known { IsTrueKnowledge case.now self.old }
        requires passes { Passes case.now cut.now }
        ensures incumbent { self.new.incumbent ≡ self.old.incumbent }
        ensures known { IsTrueKnowledge case.now self.new }
    {
        if self.search.is_some() {
            return Ok(());
        }
        let copy = cut.copy(self.alloc)?;
        push_known(case, &mut self.cuts, copy)
    }

    /// Shrinks a cut against the incumbent, over the points that are known.
    pub(crate) fn shrink_cut(
        &mut self,
        case: &Case,
        cut: Cut,
        pivots: u64,
    ) -> Result<Shrunk, AllocError>
        requires known { IsTrueKnowledge case.now self.old }
        requires passes { Passes case.now cut }
        requires active { IsActiveAgainst cut self.old.incumbent }
        ensures same { self.new ≡ self.old }
        ensures shrunk { IfOk result (IsShrunk case.now pivots self.old.incumbent cut) }
    {
        let limit = self.incumbent.as_ref();
        match &mut self.search {
            Some(search) => search.shrink(case, cut, limit, pivots),
            None => shrink_with(self.alloc, case, cut, limit, pivots, &mut self.points),
        }
    }

    /// The cut that the search has and that bars the piece and is active against the incumbent, of
    /// fewest choices. None exactly where no cut of the search does, or the search has not begun.
    pub fn cut_against(&self, case: &Case, piece: &Piece) -> Option<&Cut>
        requires known { IsTrueKnowledge case.now self.now }
        ensures against { IfSome (option_copied result) (λ c. Contains (searched self.now.found) c × IsAgainst piece.now self.now.incumbent c) }
        ensures none { IfNone (option_copied result) (All (λ c. IsAgainst piece.now self.now.incumbent c → ⊥) (searched self.now.found)) }
    {
        let Some(search) = &self.search else {
            return None;
        };
        search.cut_against(case, piece, self.incumbent.as_ref())
    }

    /// A copy of the cut that the search has against the piece. None where it has none.
    pub(crate) fn copy_against(&self, case: &Case, piece: &Piece) -> Result<Option<Cut>, AllocError>
        requires known { IsTrueKnowledge case.now self.now }
        ensures { IfOk result (λ made. IfSome made (λ c. Passes case.now c × IsAgainst piece.now self.now.incumbent c)) }
    {
        match self.cut_against(case, piece) {
            Some(cut) => Ok(Some(cut.copy(self.alloc)?)),
            None => Ok(None),
        }
    }

    /// Whether there is something to search or to be taken before a drawn piece is settled. There is
    /// nothing to search where a known cut bars the piece, and for the first pieces of a run.
    pub fn is_searching(&self, case: &Case, ticket: &Ticket) -> bool
        requires known { IsTrueKnowledge case.now self.now }
    {
        if ticket.number < PLAIN_PIECES {
            return false;
        }
        if !self.fresh.is_empty() {
            return true;
        }
        !self.is_over && self.cut_against(case, &ticket.piece).is_none()
    }

    /// Whether the search has ended refuted, and all that it found was taken. Nothing is claimed of
    /// it.
    pub fn is_refuted(&self) -> bool {
        self.is_refuted && self.fresh.is_empty()
    }

    /// Goes on with the search no more, and leaves what was found and not taken. What is known serves
    /// as before.
    pub fn leave_search(&mut self)
        ensures { self.new ≡ self.old }
    {
        self.is_over = true;
        self.fresh.clear();
    }

    /// Begins the search where it has not begun.
    fn begin(&mut self, case: &Case) -> Result<(), AllocError>
        requires known { IsTrueKnowledge case.now self.old }
        ensures known { IsTrueKnowledge case.now self.new }
    {
        if self.search.is_some() {
            return Ok(());
        }
        let search = begun(self.alloc, case, self.seed, self.cuts.as_slice())?;
        self.search = Some(search);
        Ok(())
    }

    /// Goes on with a search that has begun.
    fn go_on(&mut self, case: &Case, conflicts: u64) -> Result<(), AllocError>
        requires known { IsTrueKnowledge case.now self.old }
        ensures known { IsTrueKnowledge case.now self.new }
    {
        let Some(search) = &mut self.search else {
            return Ok(());
        };
        let incumbent = self.incumbent.as_ref();
        let found = &mut self.fresh;
        match gone_on(self.alloc, case, search, incumbent, conflicts, found) {
            Ok(stop) => {
                self.is_over = stop != Stop::Conflicts;
                self.is_refuted = stop == Stop::Refuted;
                Ok(())
            },
            Err(fault) => Err(fault),
        }
    }

    /// Begins the search where it has not begun, and goes on with it until it has met as many
    /// conflicts, or comes to its end. The best point that it has becomes the incumbent. A search
    /// that is over does not go on.
    ///
    /// # Errors
    ///
    /// Want of memory alone.
    pub fn search_on(&mut self, case: &Case, conflicts: u64) -> Result<(), AllocError>
        requires known { IsTrueKnowledge case.now self.old }
        ensures known { IsTrueKnowledge case.now self.new }
    {
        if self.is_over {
            return Ok(());
        }
        self.begin(case)?;
        self.conflicts = self.conflicts.saturating_add(conflicts);
        self.go_on(case, conflicts)?;
        self.take_best(case)
    }

    /// Takes the best point of the search as the incumbent, where it is lower.
    fn take_best(&mut self, case: &Case) -> Result<(), AllocError>
        requires known { IsTrueKnowledge case.now self.old }
        ensures known { IsTrueKnowledge case.now self.new }
    {
        let Some(search) = &self.search else {
            return Ok(());
        };
        let Some(best) = search.best() else {
            return Ok(());
        };
        let point = best.copy(self.alloc)?;
        self.improve(case, point);
        Ok(())
    }

    /// Searches to the end before a piece is settled, unless it is one of the first pieces of the
    /// run, or a known cut bars it. In all the search meets at most as many conflicts as pieces may
    /// be drawn.
    pub(crate) fn prepare(
        &mut self,
        case: &Case,
        ticket: &Ticket,
        most: u64,
    ) -> Result<(), AllocError>
        requires known { IsTrueKnowledge case.now self.old }
        ensures known { IsTrueKnowledge case.now self.new }
    {
        if ticket.number < PLAIN_PIECES {
            return Ok(());
        }
        self.begin(case)?;
        if self.is_over || self.cut_against(case, &ticket.piece).is_some() {
            return Ok(());
        }
        let conflicts = most.saturating_sub(self.conflicts);
        self.search_on(case, conflicts)?;
        self.is_over = true;
        Ok(())
    }

    /// A copy of a cut that the search has found and that was not taken yet, the newest first. It
    /// passes. None where all were taken.
    ///
    /// # Errors
    ///
    /// Want of memory alone.
    pub fn take_found(&mut self, case: &Case) -> Result<Option<Cut>, AllocError>
        requires known { IsTrueKnowledge case.now self.old }
        ensures same { self.new ≡ self.old }
        ensures passes { IfOk result (λ made. IfSome made (Passes case.now)) }
    {
        let Some(search) = &self.search else {
            return Ok(None);
        };
        let Some(place) = self.fresh.pop() else {
            return Ok(None);
        };
        copy_at(self.alloc, case, search, place)
    }
}
