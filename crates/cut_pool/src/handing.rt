//! Handing out passes: all pages of all lanes, to one worker.
ghost use Rattle.std.specs.Prelude.{◌≡◌, ◌≢◌, ◌<◌, ◌≤◌, ◌++◌, ◌∷◌, ℕ, List, [], IfOk, OnOk, OnErr, length, map, replicate, slice_index, slice_set};
ghost use Rattle.lpcc_case.specs.Instance.{Instance};
ghost use Rattle.cut_pool.specs.Opened.{RowWaits, Waits};
ghost use Rattle.cut_pool.specs.Reaches.{TookAll, TookPages};

use crate::opened::{Opened, take_lane};
use crate::reach::Reach;
use std::alloc::{AllocError, Global};
use std::marker::Model;

/// The pages of a lane that were opened, in their order.
#[derive(Drop)]
pub struct OpenedLane {
    pages: Vec<Opened>,
}

impl Model for OpenedLane {
    ghost use Rattle.std.specs.Prelude.{List, Option};
    ghost use Rattle.cut_pool.specs.Pages.{PageView};

    ghost Value = { List (List (Option PageView)) };

    ghost view = { λ l. l.pages.items };
}

impl OpenedLane {
    /// A lane without pages.
    pub fn new(alloc: Global) -> OpenedLane
        ensures { result ≡ [] }
    {
        OpenedLane {
            pages: Vec::new(alloc),
        }
    }

    /// The number of pages.
    pub fn len(&self) -> usize
        ensures { result ≡ length self.now }
    {
        self.pages.len()
    }

    /// Adds a page behind the others. Without memory nothing changes.
    pub fn push(&mut self, opened: Opened) -> Result<(), AllocError>
        ensures ok { OnOk result (self.new ≡ self.old ++ opened ∷ []) }
        ensures err { OnErr result (self.new ≡ self.old) }
    {
        self.pages.push(opened)?;
        Ok(())
    }

    /// Hands the passes to the pages of this lane to a worker, from the first that it has not yet.
    /// Where memory ends, it has those that `handed` counts.
    pub fn hand_out(
        &mut self,
        handed: &mut usize,
        worker: usize,
        lane: usize,
        reach: &mut Reach,
    ) -> Result<(), AllocError>
        requires lane { lane < length reach.old.lanes }
        requires within { handed.old ≤ length self.old }
        requires waits { (j : ℕ) → handed.old ≤ j → j < length self.old → Waits reach.old.case self.old worker j }
        ensures all { OnOk result (handed.new ≡ length self.old) }
        ensures within { handed.new ≤ length self.old }
        ensures took { TookPages reach.old reach.new lane handed.old handed.new }
        ensures left { (j : ℕ) → handed.new ≤ j → j < length self.old → Waits reach.old.case self.new worker j }
        ensures others { (a : Instance) (w k : ℕ) → w ≢ worker → Waits a self.old w k → Waits a self.new w k }
        ensures count { length self.new ≡ length self.old }
    {
        take_lane(&mut self.pages, handed, worker, lane, reach)
    }
}

/// How many pages of each lane were handed to a worker.
#[derive(Drop)]
pub struct Handed {
    counts: Vec<usize>,
}

impl Model for Handed {
    ghost use Rattle.std.specs.Prelude.{ℕ, List};

    ghost Value = { List ℕ };

    ghost view = { λ h. h.counts.items };
}

impl Handed {
    /// None of so many lanes.
    pub fn none(alloc: Global, lanes: usize) -> Result<Handed, AllocError>
        ensures { IfOk result (λ made. made ≡ replicate lanes 0) }
    {
        Ok(Handed {
            counts: vec![in alloc; 0usize; lanes]?,
        })
    }

    pub fn as_slice(&self) -> &[usize]
        ensures { result.now ≡ self.now }
    {
        self.counts.as_slice()
    }

    pub fn of_lane(&self, lane: usize) -> usize
        requires { lane < length self.now }
        ensures { result ≡ slice_index self.now lane }
    {
        self.counts[lane]
    }

    pub fn set(&mut self, lane: usize, count: usize)
        requires { lane < length self.old }
        ensures { self.new ≡ slice_set self.old lane count }
    {
        self.counts[lane] = count;
    }
}

/// Hands every pass that a worker has not yet to its reach. Where memory ends, it has those that its
/// row counts.
pub fn take_all(
    lanes: &mut Vec<OpenedLane>,
    row: &mut Handed,
    worker: usize,
    reach: &mut Reach,
) -> Result<(), AllocError>
    requires lanes { length reach.old.lanes ≡ length lanes.old.items }
    requires waits { RowWaits reach.old.case lanes.old.items row.old worker }
    ensures all { OnOk result (row.new ≡ map length lanes.new.items) }
    ensures took { TookAll reach.old reach.new row.old row.new }
    ensures waits { RowWaits reach.old.case lanes.new.items row.new worker }
    ensures others { (a : Instance) (w : ℕ) (r : List ℕ) → w ≢ worker → RowWaits a lanes.old.items r w → RowWaits a lanes.new.items r w }
    ensures counts { map length lanes.new.items ≡ map length lanes.old.items }
{
    for lane in 0..lanes.len() {
        let mut handed = row.of_lane(lane);
        let done = lanes[lane].hand_out(&mut handed, worker, lane, reach);
        row.set(lane, handed);
        done?;
    }
    Ok(())
}
