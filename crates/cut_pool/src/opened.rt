//! Pages that were opened, with a pass for each worker.
ghost use Rattle.std.specs.Prelude.{◌≡◌, ◌≢◌, ◌<◌, ◌≤◌, ◌^◌, ◌⊎◌, ℕ, [], Some, None, IfOk, OnOk, OnErr, All, length, slice_get, slice_set};
ghost use Rattle.lpcc_case.specs.Instance.{Instance};
ghost use Rattle.cut_pool.specs.Pages.{PageView};
ghost use Rattle.cut_pool.specs.Lanes.{with_page};
ghost use Rattle.cut_pool.specs.Reaches.{lane_at, TookPages};
ghost use Rattle.std.specs.Arc.{arc_value};
ghost use Rattle.page.specs.Passes as passes;
ghost use Rattle.cut_words.specs.Words.{item_length};
ghost use Rattle.cut_pool.specs.Opened.{IsReady, IsReadyPage, IsFreshPage, Waits};

use crate::held::Held;
use crate::keeps::CutKeeps;
use crate::reach::Reach;
use lpcc_case::Case;
use page::{Page, ReadPass, WritePass};
use std::alloc::{AllocError, AllocFailed, Global};
use std::marker::Model;
use std::sync::Arc;

/// A page on the shelf: for each worker its pass, until it is taken.
#[derive(Drop)]
pub struct Opened {
    passes: Vec<Option<Held>>,
}

impl Model for Opened {
    ghost use Rattle.std.specs.Prelude.{List, Option};
    ghost use Rattle.cut_pool.specs.Pages.{PageView};

    ghost Value = { List (Option PageView) };

    ghost view = { λ o. o.passes.items };
}

impl Opened {
    /// Takes the pass of a worker.
    fn take(&mut self, worker: usize) -> Held
        requires { (p : PageView) × (slice_get self.old worker ≡ Some (Some p)) }
        ensures pass { slice_get self.old worker ≡ Some (Some result) }
        ensures rest { self.new ≡ slice_set self.old worker None }
    {
        let Some(held) = self.passes[worker].take() else {
            unreachable!();
        };
        held
    }

    /// Puts the pass of a worker back.
    fn put(&mut self, worker: usize, held: Held)
        requires { worker < length self.old }
        ensures { self.new ≡ slice_set self.old worker (Some held) }
    {
        self.passes[worker] = Some(held);
    }
}

/// Hands a pass to a reach. Without memory nothing changes.
pub fn hand_one(
    pages: &mut Vec<Opened>,
    j: usize,
    worker: usize,
    lane: usize,
    reach: &mut Reach,
) -> Result<(), AllocError>
    requires lane { lane < length reach.old.lanes }
    requires waits { Waits reach.old.case pages.old.items worker j }
    ensures ok { OnOk result ((p : PageView) × IsFreshPage reach.old.case p × (reach.new ≡ record reach.old { lanes = slice_set reach.old.lanes lane (with_page (lane_at reach.old lane) p) })) }
    ensures err { OnErr result ((reach.new ≡ reach.old) × (pages.new.items ≡ pages.old.items)) }
    ensures others { (a : Instance) (w k : ℕ) → (w ≢ worker) ⊎ (k ≢ j) → Waits a pages.old.items w k → Waits a pages.new.items w k }
    ensures count { length pages.new.items ≡ length pages.old.items }
{
    let held = pages[j].take(worker);
    if let Err(failed) = reach.add(lane, held) {
        let AllocFailed { value } = failed;
        pages[j].put(worker, value);
        return Err(AllocError);
    }
    Ok(())
}

fn held_of(page: &Arc<Page<CutKeeps>, Global>, pass: ReadPass<CutKeeps>) -> Result<Held, AllocError>
    requires ours { passes.IsNewReaderOf (arc_value page.now) pass }
    requires stride { passes.stride_of (arc_value page.now) ≡ item_length (arc_value (passes.keeps_of (arc_value page.now)).case) }
    requires sized { (0 < passes.room_of (arc_value page.now)) × (passes.room_of (arc_value page.now) < 2 ^ 32) }
    ensures { IfOk result (λ held. IsReadyPage (arc_value (passes.keeps_of (arc_value page.now)).case) (passes.room_of (arc_value page.now)) held) }
{
    let page = Arc::try_clone(page)?;
    Ok(Held::of(page, pass))
}

/// A pass for each worker.
fn passes_of(
    alloc: Global,
    page: &Arc<Page<CutKeeps>, Global>,
    mut reads: Vec<ReadPass<CutKeeps>>,
) -> Result<Vec<Option<Held>>, AllocError>
    requires ours { All (passes.IsNewReaderOf (arc_value page.now)) reads.items }
    requires stride { passes.stride_of (arc_value page.now) ≡ item_length (arc_value (passes.keeps_of (arc_value page.now)).case) }
    requires sized { (0 < passes.room_of (arc_value page.now)) × (passes.room_of (arc_value page.now) < 2 ^ 32) }
    ensures count { IfOk result (λ made. length made.items ≡ length reads.items) }
    ensures ready { IfOk result (λ made. All (IsReady (arc_value (passes.keeps_of (arc_value page.now)).case) (passes.room_of (arc_value page.now))) made.items) }
{
    let mut made = Vec::with_capacity(alloc, reads.len())?;
    while let Some(pass) = reads.pop() {
        made.push(Some(held_of(page, pass)?))?;
    }
    Ok(made)
}

/// An empty page, the pass that publishes in it, and a pass for each worker.
pub fn open_page(
    alloc: Global,
    case: &Arc<Case, Global>,
    workers: u32,
    room: u32,
) -> Result<(Arc<Page<CutKeeps>, Global>, WritePass<CutKeeps>, Opened), AllocError>
    requires { 0 < room }
    ensures page { IfOk result (λ made. (passes.room_of (arc_value made.0) ≡ room) × (arc_value (passes.keeps_of (arc_value made.0)).case ≡ arc_value case.now) × (passes.stride_of (arc_value made.0) ≡ item_length (arc_value case.now))) }
    ensures writer { IfOk result (λ made. passes.IsWriterOf (arc_value made.0) made.1 × (passes.published made.1 ≡ [])) }
    ensures ready { IfOk result (λ made. (length made.2 ≡ workers) × All (IsReady (arc_value case.now) room) made.2) }
{
    let keeps = CutKeeps {
        case: Arc::try_clone(case)?,
    };
    let (page, write, reads) = Page::create(alloc, keeps, room, workers)?;
    let page = Arc::new(alloc, page)?;
    let passes = passes_of(alloc, &page, reads)?;
    Ok((page, write, Opened { passes }))
}

/// Hands the passes of a lane to a worker, from the first that it has not yet. Where memory ends, it has
/// those that `handed` counts.
pub fn take_lane(
    pages: &mut Vec<Opened>,
    handed: &mut usize,
    worker: usize,
    lane: usize,
    reach: &mut Reach,
) -> Result<(), AllocError>
    requires lane { lane < length reach.old.lanes }
    requires within { handed.old ≤ length pages.old.items }
    requires waits { (j : ℕ) → handed.old ≤ j → j < length pages.old.items → Waits reach.old.case pages.old.items worker j }
    ensures all { OnOk result (handed.new ≡ length pages.old.items) }
    ensures within { handed.new ≤ length pages.old.items }
    ensures took { TookPages reach.old reach.new lane handed.old handed.new }
    ensures left { (j : ℕ) → handed.new ≤ j → j < length pages.old.items → Waits reach.old.case pages.new.items worker j }
    ensures others { (a : Instance) (w k : ℕ) → w ≢ worker → Waits a pages.old.items w k → Waits a pages.new.items w k }
    ensures count { length pages.new.items ≡ length pages.old.items }
{
    while *handed < pages.len() {
        hand_one(pages, *handed, worker, lane, reach)?;
        *handed += 1;
    }
    Ok(())
}
