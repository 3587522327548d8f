//! The walk over the pieces in their order.
ghost use Rattle.std.specs.Prelude.{◌≡◌, ◌<◌, ◌≤◌, ◌∷◌, ◌++◌, ◌+◌, [], ℕ, List, All, IfOk, IfSome, IfNone, OnOk, OnErr, Contains, true, false, length, take, slice_index_or};
ghost use Rattle.nogoods.specs.declared.choice.Side.TheVariants as side;
ghost use Rattle.nogoods.specs.Pieces.{Bars};
ghost use Rattle.derivation.specs.HintRuns.{NamesBelow};
ghost use Rattle.derivation.specs.Logs.{no_goods};
ghost use Rattle.search.specs.FirstPieces.{IsBarred};
ghost use Rattle.search.specs.Growth.{Grown};
ghost use Rattle.search.specs.Walks.{AllExhausted, BarsNext, Closes, Witnessed, IsResolvent, IsWalk, IsExhausted, ExhaustsA, Exhausts, GoesOn, moments_left, EndsIn};
ghost use Rattle.search.specs.declared.walk.Reason.TheVariants as because;
ghost use Rattle.search.specs.declared.walk.Phase.TheVariants as phase;

use crate::index::Index;
use crate::prefix::{barring, choices_of, find};
use crate::resolve::{learn, resolve, resolve_more};
use derivation::Log;
use lpcc_case::MOST_PAIRS;
use nogoods::{Choice, Side};
use piece_sets::PieceSet;
use std::alloc::{AllocError, Global};

/// Why sides are exhausted: by a step, or since pieces are blocked.
#[derive(Clone, Copy)]
pub(crate) enum Reason {
    By(usize),
    BlockedPieces,
}

/// A no-good that follows from steps and bars the sides: the choices of the sides whose pairs are
/// marked, and the hints of its unit propagation.
#[derive(Drop)]
pub(crate) struct Resolvent {
    pub(crate) marks: Vec<bool>,
    pub(crate) hints: Vec<u64>,
}

/// Where the walk is at the sides that it has: before side A of the next pair, between its sides,
/// with side A exhausted, or behind both, by a step, by blocked pieces or by a resolvent.
#[derive(Drop)]
pub(crate) enum Phase {
    Open,
    Turn(Reason),
    Exhausted(Reason),
    Resolved(Resolvent),
}

/// The sides of the first pairs, and for each B why A is exhausted there.
pub(crate) struct Walk {
    pub(crate) sides: Vec<Side>,
    pub(crate) reasons: Vec<Reason>,
}

/// By a call, which keeps the models of the functions small that own one.
impl Drop for Walk {
    fn drop(self) {
        let Walk {
            sides: _,
            reasons: _,
        } = self;
    }
}

/// What follows at these sides, where a step bars side B behind them and side A is exhausted.
fn close(
    alloc: Global,
    log: &Log,
    fresh: bool,
    pairs: u32,
    blocked: &PieceSet,
    sides: &[Side],
    first: Reason,
    second: usize,
) -> Result<Phase, AllocError>
    requires short { length sides.now < pairs }
    requires first { ExhaustsA fresh pairs (no_goods log.now) blocked.now sides.now first }
    requires second { (second < length (no_goods log.now)) × BarsNext sides.now side.B (slice_index_or (no_goods log.now) second []) }
    ensures { IfOk result (Closes fresh pairs (no_goods log.now) blocked.now sides.now) }
{
    match first {
        Reason::BlockedPieces => Ok(Phase::Exhausted(first)),
        Reason::By(first) => {
            let resolvent = resolve(alloc, log, sides, first, second)?;
            Ok(Phase::Resolved(resolvent))
        }
    }
}

/// What follows at these sides, where a resolvent bars side B behind them and side A is exhausted.
fn close_resolved(
    log: &Log,
    fresh: bool,
    pairs: u32,
    blocked: &PieceSet,
    sides: &[Side],
    first: Reason,
    resolvent: Resolvent,
) -> Result<Phase, AllocError>
    requires short { length sides.now < pairs }
    requires named { All (NamesBelow pairs) (no_goods log.now) }
    requires first { ExhaustsA fresh pairs (no_goods log.now) blocked.now sides.now first }
    requires second { IsResolvent (no_goods log.now) (sides.now ++ side.B ∷ []) (resolvent.marks.items ++ true ∷ []) resolvent.hints.items }
    ensures { IfOk result (Closes fresh pairs (no_goods log.now) blocked.now sides.now) }
{
    match first {
        Reason::BlockedPieces => Ok(Phase::Exhausted(Reason::BlockedPieces)),
        Reason::By(first) => {
            let resolvent = resolve_more(log, sides, first, resolvent)?;
            Ok(Phase::Resolved(resolvent))
        }
    }
}

/// The last choice of a step.
fn last_of(log: &Log, step: usize) -> Option<Choice>
    requires { step < length (no_goods log.now) }
    ensures some { IfSome result (λ c. EndsIn c (slice_index_or (no_goods log.now) step [])) }
    ensures none { IfNone result (slice_index_or (no_goods log.now) step [] ≡ []) }
{
    let choices = choices_of(log, step);
    match choices.split_last() {
        Some((last, _)) => Some(*last),
        None => None,
    }
}

/// Whether the sides of a whole piece that is not barred are exhausted.
fn blocked_reason(
    log: &Log,
    fresh: bool,
    pairs: u32,
    blocked: &PieceSet,
    sides: &[Side],
) -> Option<Reason>
    requires full { length sides.now ≡ pairs }
    requires unbarred { ¬ (IsBarred (no_goods log.now) sides.now) }
    ensures some { IfSome result (λ reason. Exhausts fresh pairs (no_goods log.now) blocked.now sides.now reason) }
    ensures free { IfNone result (¬ (Contains blocked.now sides.now)) }
{
    if blocked.has(sides) {
        return Some(Reason::BlockedPieces);
    }
    None
}

/// Why the sides of a whole piece are exhausted, if they are.
pub(crate) fn whole(
    log: &Log,
    fresh: bool,
    pairs: u32,
    blocked: &PieceSet,
    sides: &[Side],
) -> Option<Reason>
    requires { length sides.now ≡ pairs }
    ensures some { IfSome result (λ reason. Exhausts fresh pairs (no_goods log.now) blocked.now sides.now reason) }
    ensures unbarred { IfNone result (¬ (IsBarred (no_goods log.now) sides.now)) }
    ensures free { IfNone result (¬ (Contains blocked.now sides.now)) }
{
    match barring(log, sides) {
        Some(step) => Some(Reason::By(step)),
        None => blocked_reason(log, fresh, pairs, blocked, sides),
    }
}

impl Walk {
    pub(crate) fn create(alloc: Global) -> Walk
        ensures sides { result.sides.items ≡ [] }
        ensures reasons { result.reasons.items ≡ [] }
    {
        Walk {
            sides: Vec::new(alloc),
            reasons: Vec::new(alloc),
        }
    }

    fn push(&mut self, side: Side, reason: Reason) -> Result<(), AllocError>
        ensures sides { OnOk result (self.new.sides.items ≡ self.old.sides.items ++ side ∷ []) }
        ensures reasons { OnOk result (self.new.reasons.items ≡ self.old.reasons.items ++ reason ∷ []) }
    {
        self.sides.push(side)?;
        self.reasons.push(reason)?;
        Ok(())
    }

    fn cut(&mut self, count: usize)
        ensures sides { self.new.sides.items ≡ take count self.old.sides.items }
        ensures reasons { self.new.reasons.items ≡ take count self.old.reasons.items }
    {
        self.sides.truncate(count);
        self.reasons.truncate(count);
    }

    /// Chooses side A for the next pair, or finds that a step bars it.
    pub(crate) fn open(
        &mut self,
        log: &Log,
        index: &Index,
        fresh: bool,
        pairs: u32,
        blocked: &PieceSet,
    ) -> Result<Phase, AllocError>
        requires short { length self.old.sides.items < pairs }
        requires kept { IsWalk fresh pairs (no_goods log.now) blocked.now self.old.sides.items self.old.reasons.items }
        ensures { IfOk result (λ next. GoesOn fresh pairs (no_goods log.now) blocked.now self.new.sides.items self.new.reasons.items next (moments_left pairs self.old.sides.items phase.Open)) }
    {
        match find(log, index, self.sides.as_slice(), Side::A) {
            Some(step) => Ok(Phase::Turn(Reason::By(step))),
            None => {
                self.push(Side::A, Reason::BlockedPieces)?;
                Ok(Phase::Open)
            }
        }
    }

    /// Chooses side B for the next pair, or finds that a step bars it.
    pub(crate) fn turn(
        &mut self,
        alloc: Global,
        log: &Log,
        index: &Index,
        fresh: bool,
        pairs: u32,
        blocked: &PieceSet,
        reason: Reason,
    ) -> Result<Phase, AllocError>
        requires kept { IsWalk fresh pairs (no_goods log.now) blocked.now self.old.sides.items self.old.reasons.items }
        requires short { length self.old.sides.items < pairs }
        requires exhausted { ExhaustsA fresh pairs (no_goods log.now) blocked.now self.old.sides.items reason }
        ensures { IfOk result (λ next. GoesOn fresh pairs (no_goods log.now) blocked.now self.new.sides.items self.new.reasons.items next (moments_left pairs self.old.sides.items (phase.Turn reason))) }
    {
        match find(log, index, self.sides.as_slice(), Side::B) {
            Some(second) => {
                let next = close(
                    alloc,
                    log,
                    fresh,
                    pairs,
                    blocked,
                    self.sides.as_slice(),
                    reason,
                    second,
                )?;
                Ok(next)
            }
            None => {
                self.push(Side::B, reason)?;
                Ok(Phase::Open)
            }
        }
    }

    /// Goes back to the last choice of a step that bars the sides. None where it has none.
    pub(crate) fn back_by(
        &mut self,
        alloc: Global,
        log: &Log,
        fresh: bool,
        pairs: u32,
        blocked: &PieceSet,
        step: usize,
    ) -> Result<Option<Phase>, AllocError>
        requires kept { IsWalk fresh pairs (no_goods log.now) blocked.now self.old.sides.items self.old.reasons.items }
        requires within { step < length (no_goods log.now) }
        requires bars { Bars (slice_index_or (no_goods log.now) step []) self.old.sides.items }
        ensures next { IfOk result (λ found. IfSome found (λ next. GoesOn fresh pairs (no_goods log.now) blocked.now self.new.sides.items self.new.reasons.items next (moments_left pairs self.old.sides.items (phase.Exhausted (because.By step))))) }
        ensures empty { IfOk result (λ found. IfNone found (slice_index_or (no_goods log.now) step [] ≡ [])) }
        ensures held { IfOk result (λ found. IfNone found (IsWalk fresh pairs (no_goods log.now) blocked.now self.new.sides.items self.new.reasons.items)) }
    {
        let Some(last) = last_of(log, step) else {
            return Ok(None);
        };
        let at = last.pair as usize;
        let first = self.reasons[at];
        self.cut(at);
        match last.side {
            Side::A => Ok(Some(Phase::Turn(Reason::By(step)))),
            Side::B => {
                let next = close(
                    alloc,
                    log,
                    fresh,
                    pairs,
                    blocked,
                    self.sides.as_slice(),
                    first,
                    step,
                )?;
                Ok(Some(next))
            }
        }
    }

    /// Goes back by one pair whose choice the resolvent does not have.
    fn back_past(
        &mut self,
        log: &Log,
        fresh: bool,
        pairs: u32,
        blocked: &PieceSet,
        at: usize,
        mut resolvent: Resolvent,
    ) -> Phase
        requires last { at + 1 ≡ length self.old.sides.items }
        requires kept { IsWalk fresh pairs (no_goods log.now) blocked.now self.old.sides.items self.old.reasons.items }
        requires resolvent { IsResolvent (no_goods log.now) self.old.sides.items resolvent.marks.items resolvent.hints.items }
        requires unmarked { slice_index_or resolvent.marks.items at false ≡ false }
        ensures { GoesOn fresh pairs (no_goods log.now) blocked.now self.new.sides.items self.new.reasons.items result (moments_left pairs self.old.sides.items (phase.Resolved resolvent)) }
    {
        self.cut(at);
        resolvent.marks.truncate(at);
        Phase::Resolved(resolvent)
    }

    /// Goes back to side A of the last pair, by a step that is learned.
    fn back_to_a(
        &mut self,
        alloc: Global,
        log: &mut Log,
        index: &mut Index,
        fresh: bool,
        pairs: u32,
        blocked: &PieceSet,
        at: usize,
        resolvent: Resolvent,
    ) -> Result<Phase, AllocError>
        requires few { pairs ≤ MOST_PAIRS }
        requires named { All (NamesBelow pairs) (no_goods log.old) }
        requires last { at + 1 ≡ length self.old.sides.items }
        requires kept { IsWalk fresh pairs (no_goods log.old) blocked.now self.old.sides.items self.old.reasons.items }
        requires resolvent { IsResolvent (no_goods log.old) self.old.sides.items resolvent.marks.items resolvent.hints.items }
        requires marked { slice_index_or resolvent.marks.items at false ≡ true }
        requires here { slice_index_or self.old.sides.items at side.A ≡ side.A }
        ensures grown { Grown pairs log.old log.new }
        ensures next { IfOk result (λ next. GoesOn fresh pairs (no_goods log.new) blocked.now self.new.sides.items self.new.reasons.items next (moments_left pairs self.old.sides.items (phase.Resolved resolvent))) }
    {
        let step = learn(alloc, log, index, pairs, self.sides.as_slice(), resolvent)?;
        self.cut(at);
        Ok(Phase::Turn(Reason::By(step)))
    }

    /// Goes back over side B of the last pair.
    fn back_over_b(
        &mut self,
        log: &Log,
        fresh: bool,
        pairs: u32,
        blocked: &PieceSet,
        at: usize,
        mut resolvent: Resolvent,
    ) -> Result<Phase, AllocError>
        requires named { All (NamesBelow pairs) (no_goods log.now) }
        requires last { at + 1 ≡ length self.old.sides.items }
        requires kept { IsWalk fresh pairs (no_goods log.now) blocked.now self.old.sides.items self.old.reasons.items }
        requires resolvent { IsResolvent (no_goods log.now) self.old.sides.items resolvent.marks.items resolvent.hints.items }
        requires marked { slice_index_or resolvent.marks.items at false ≡ true }
        requires here { slice_index_or self.old.sides.items at side.A ≡ side.B }
        ensures { IfOk result (λ next. GoesOn fresh pairs (no_goods log.now) blocked.now self.new.sides.items self.new.reasons.items next (moments_left pairs self.old.sides.items (phase.Resolved resolvent))) }
    {
        let first = self.reasons[at];
        self.cut(at);
        resolvent.marks.truncate(at);
        let next = close_resolved(
            log,
            fresh,
            pairs,
            blocked,
            self.sides.as_slice(),
            first,
            resolvent,
        )?;
        Ok(next)
    }

    /// Goes back by one pair, where a resolvent bars the sides.
    pub(crate) fn back_resolved(
        &mut self,
        alloc: Global,
        log: &mut Log,
        index: &mut Index,
        fresh: bool,
        pairs: u32,
        blocked: &PieceSet,
        at: usize,
        resolvent: Resolvent,
    ) -> Result<Phase, AllocError>
        requires few { pairs ≤ MOST_PAIRS }
        requires named { All (NamesBelow pairs) (no_goods log.old) }
        requires last { at + 1 ≡ length self.old.sides.items }
        requires kept { IsWalk fresh pairs (no_goods log.old) blocked.now self.old.sides.items self.old.reasons.items }
        requires resolvent { IsResolvent (no_goods log.old) self.old.sides.items resolvent.marks.items resolvent.hints.items }
        ensures grown { Grown pairs log.old log.new }
        ensures next { IfOk result (λ next. GoesOn fresh pairs (no_goods log.new) blocked.now self.new.sides.items self.new.reasons.items next (moments_left pairs self.old.sides.items (phase.Resolved resolvent))) }
    {
        if !resolvent.marks[at] {
            return Ok(self.back_past(log, fresh, pairs, blocked, at, resolvent));
        }
        match self.sides[at] {
            Side::A => self.back_to_a(alloc, log, index, fresh, pairs, blocked, at, resolvent),
            Side::B => self.back_over_b(log, fresh, pairs, blocked, at, resolvent),
        }
    }

    /// Goes back by one pair, where blocked pieces exhaust the sides. None where there is no pair.
    pub(crate) fn back(
        &mut self,
        log: &Log,
        fresh: bool,
        pairs: u32,
        blocked: &PieceSet,
    ) -> Option<Phase>
        requires kept { IsWalk fresh pairs (no_goods log.now) blocked.now self.old.sides.items self.old.reasons.items }
        requires exhausted { IsExhausted pairs (no_goods log.now) blocked.now self.old.sides.items }
        requires witnessed { Witnessed fresh pairs (no_goods log.now) blocked.now }
        ensures next { IfSome result (λ next. GoesOn fresh pairs (no_goods log.now) blocked.now self.new.sides.items self.new.reasons.items next (moments_left pairs self.old.sides.items (phase.Exhausted because.BlockedPieces))) }
        ensures held { IfNone result (IsWalk fresh pairs (no_goods log.now) blocked.now self.new.sides.items self.new.reasons.items) }
        ensures end { IfNone result (AllExhausted pairs (no_goods log.now) blocked.now) }
    {
        let count = self.sides.len();
        if count == 0 {
            return None;
        }
        let at = count - 1;
        let side = self.sides[at];
        self.cut(at);
        match side {
            Side::A => Some(Phase::Turn(Reason::BlockedPieces)),
            Side::B => Some(Phase::Exhausted(Reason::BlockedPieces)),
        }
    }
}
