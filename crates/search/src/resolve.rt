//! Resolvents, and steps that are learned.
ghost use Rattle.std.specs.Prelude.{◌≡◌, ◌<◌, ◌≤◌, ℕ, All, Contains, IsTrue, IfOk, OnErr, OnOk, Some, [], ◌∷◌, ◌++◌, false, true, length, slice_get, slice_index_or};
ghost use Rattle.nogoods.specs.declared.choice.Choice.{Choice as ChosenSide};
ghost use Rattle.nogoods.specs.declared.choice.Side.TheVariants as side;
ghost use Rattle.nogoods.specs.Choices.{pairs_ascend};
ghost use Rattle.nogoods.specs.Pieces.{Bars};
ghost use Rattle.derivation.specs.HintRuns.{NamesBelow, closes, is_assumed};
ghost use Rattle.derivation.specs.Logs.{no_goods};
ghost use Rattle.search.specs.Chosen.{chosen, with_choice, IsMarked, StaysMarked};
ghost use Rattle.search.specs.Growth.{Grown};
ghost use Rattle.search.specs.Walks.{BarsNext, IsResolvent};

use crate::index::Index;
use crate::prefix::choices_of;
use crate::walk::Resolvent;
use derivation::Log;
use lp_base::Sequence;
use lpcc_case::MOST_PAIRS;
use nogoods::{Choice, NoGood, Side};
use std::alloc::{AllocError, Global};

/// Sets a mark, if there is one for the pair.
fn mark_pair(marks: &mut Vec<bool>, choice: Choice)
    ensures marked { IsMarked marks.new.items choice }
    ensures kept { StaysMarked marks.old.items marks.new.items }
{
    let at = choice.pair as usize;
    if at < marks.len() {
        marks[at] = true;
    }
}

/// Marks the pairs of the choices.
pub(crate) fn mark(marks: &mut Vec<bool>, choices: &[Choice])
    ensures marked { All (IsMarked marks.new.items) choices.now }
    ensures kept { StaysMarked marks.old.items marks.new.items }
{
    for choice in choices {
        mark_pair(marks, *choice);
    }
}

fn push_if(made: &mut Vec<Choice>, marked: bool, choice: Choice) -> Result<(), AllocError>
    ensures { OnOk result (made.new.items ≡ with_choice made.old.items marked choice) }
{
    if marked {
        made.push(choice)?;
    }
    Ok(())
}

fn choice_at(at: usize, side: Side) -> Choice
    requires { at < MOST_PAIRS }
    ensures { result ≡ record { pair = at; side = side } }
{
    Choice {
        pair: at as u32,
        side,
    }
}

/// The choices of the marked pairs.
fn chosen(alloc: Global, marks: &[bool], sides: &[Side]) -> Result<Vec<Choice>, AllocError>
    requires same { length marks.now ≡ length sides.now }
    requires few { length sides.now ≤ MOST_PAIRS }
    ensures { IfOk result (λ made. made.items ≡ chosen 0 marks.now sides.now) }
{
    let mut made = Vec::new(alloc);
    for at in 0..sides.len() {
        push_if(&mut made, marks[at], choice_at(at, sides[at]))?;
    }
    Ok(made)
}

fn marks_of(
    alloc: Global,
    count: usize,
    first: &[Choice],
    second: &[Choice],
) -> Result<Vec<bool>, AllocError>
    ensures size { IfOk result (λ marks. length marks.items ≡ count) }
    ensures first { IfOk result (λ marks. All (IsMarked marks.items) first.now) }
    ensures second { IfOk result (λ marks. All (IsMarked marks.items) second.now) }
{
    let mut marks = vec![in alloc; false; count]?;
    mark(&mut marks, first);
    mark(&mut marks, second);
    Ok(marks)
}

fn hints_of(alloc: Global, first: usize, second: usize) -> Result<Vec<u64>, AllocError>
    ensures { IfOk result (λ made. made.items ≡ first ∷ second ∷ []) }
{
    let mut made = Vec::new(alloc);
    made.push(first as u64)?;
    made.push(second as u64)?;
    Ok(made)
}

/// The resolvent of a step that bars side A behind the sides and one that bars side B.
pub(crate) fn resolve(
    alloc: Global,
    log: &Log,
    sides: &[Side],
    first: usize,
    second: usize,
) -> Result<Resolvent, AllocError>
    requires first { (first < length (no_goods log.now)) × BarsNext sides.now side.A (slice_index_or (no_goods log.now) first []) }
    requires second { (second < length (no_goods log.now)) × BarsNext sides.now side.B (slice_index_or (no_goods log.now) second []) }
    ensures { IfOk result (λ made. IsResolvent (no_goods log.now) sides.now made.marks.items made.hints.items) }
{
    let marks = marks_of(
        alloc,
        sides.len(),
        choices_of(log, first),
        choices_of(log, second),
    )?;
    let hints = hints_of(alloc, first, second)?;
    Ok(Resolvent { marks, hints })
}

/// The resolvent of a step that bars side A behind the sides and a resolvent that bars side B.
pub(crate) fn resolve_more(
    log: &Log,
    sides: &[Side],
    first: usize,
    resolvent: Resolvent,
) -> Result<Resolvent, AllocError>
    requires first { (first < length (no_goods log.now)) × BarsNext sides.now side.A (slice_index_or (no_goods log.now) first []) }
    requires second { IsResolvent (no_goods log.now) (sides.now ++ side.B ∷ []) (resolvent.marks.items ++ true ∷ []) resolvent.hints.items }
    ensures { IfOk result (λ made. IsResolvent (no_goods log.now) sides.now made.marks.items made.hints.items) }
{
    let Resolvent {
        mut marks,
        mut hints,
    } = resolvent;
    mark(&mut marks, choices_of(log, first));
    hints.insert(0, first as u64)?;
    Ok(Resolvent { marks, hints })
}

pub(crate) fn no_good(alloc: Global, list: &[Choice]) -> Result<NoGood, AllocError>
    requires { pairs_ascend list.now ≡ true }
    ensures { IfOk result (λ made. made ≡ list.now) }
{
    match NoGood::from_choices(alloc, list)? {
        Some(made) => Ok(made),
        None => Err(AllocError),
    }
}

/// Adds a step that follows.
pub(crate) fn add(
    log: &mut Log,
    pairs: u32,
    ng: NoGood,
    hints: Sequence<u64>,
) -> Result<(), AllocError>
    requires named { All (NamesBelow pairs) (no_goods log.old) }
    requires below { NamesBelow pairs ng }
    requires closed { closes (no_goods log.old) ng hints ≡ true }
    ensures grown { Grown pairs log.old log.new }
    ensures added { OnOk result (no_goods log.new ≡ no_goods log.old ++ ng ∷ []) }
{
    log.derive(ng, hints)
}

/// Adds the resolvent to the log as a step, and gives its number.
pub(crate) fn learn(
    alloc: Global,
    log: &mut Log,
    index: &mut Index,
    pairs: u32,
    sides: &[Side],
    resolvent: Resolvent,
) -> Result<usize, AllocError>
    requires few { pairs ≤ MOST_PAIRS }
    requires fits { length sides.now ≤ pairs }
    requires named { All (NamesBelow pairs) (no_goods log.old) }
    requires resolvent { IsResolvent (no_goods log.old) sides.now resolvent.marks.items resolvent.hints.items }
    ensures grown { Grown pairs log.old log.new }
    ensures made { IfOk result (λ k. (k < length (no_goods log.new)) × (slice_index_or (no_goods log.new) k [] ≡ chosen 0 resolvent.marks.items sides.now)) }
{
    let Resolvent { marks, hints } = resolvent;
    let list = chosen(alloc, marks.as_slice(), sides)?;
    index.add(list.as_slice())?;
    let at = log.steps().len();
    add(
        log,
        pairs,
        no_good(alloc, list.as_slice())?,
        Sequence::of_vec(hints),
    )?;
    Ok(at)
}
