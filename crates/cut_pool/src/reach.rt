//! What one worker holds: a pass that publishes, and a pass to each page of each lane.
ghost use Rattle.std.specs.Prelude.{◌≡◌, ◌≢◌, ◌<◌, ◌≤◌, ◌+◌, ◌++◌, ◌∷◌, [], IsTrue, ℕ, OnOk, OnErr, IfErr, length, slice_set};
ghost use Rattle.std.specs.Arc.{arc_value};
ghost use Rattle.cut_words.specs.Words.{item_length, SpellsPassing};
ghost use Rattle.page.specs.Passes as passes;
ghost use Rattle.cut_pool.specs.Pages.{IsSized};
ghost use Rattle.cut_pool.specs.Lanes.{given, with_page, NextOf};
ghost use Rattle.cut_pool.specs.Reaches.{ReachView, lane_at, AreLanesOf, AreMarked, SameButLane};

use crate::held::Held;
use crate::keeps::CutKeeps;
use crate::lane::Lane;
use lpcc_case::Case;
use page::{Page, WritePass};
use std::alloc::{AllocFailed, Global};
use std::marker::Model;
use std::sync::Arc;

/// A worker's way into the pool. Contracts see its number, its case, how many publications it has
/// room for, what it has published in its page, and its lanes.
pub struct Reach {
    worker: u32,
    case: Arc<Case, Global>,
    page: Arc<Page<CutKeeps>, Global>,
    write: WritePass<CutKeeps>,
    spare: u32,
    lanes: Vec<Lane>,
}

/// By a call, which keeps the models of the functions small that own one.
impl Drop for Reach {
    fn drop(self) {
        let Reach {
            worker: _,
            case: _,
            page: _,
            write: _,
            spare: _,
            lanes: _,
        } = self;
    }
}

impl Model for Reach {
    ghost use Rattle.std.specs.Prelude.{◌≡◌, ◌+◌, length};
    ghost use Rattle.std.specs.Arc.{arc_value};
    ghost use Rattle.cut_words.specs.Words.{item_length};
    ghost use Rattle.page.specs.Passes as passes;
    ghost use Rattle.cut_pool.specs.Reaches.{ReachView, AreLanesOf};

    ghost Value = { ReachView };

    ghost view = { λ r. record { worker = r.worker; case = arc_value r.case; spare = r.spare; published = passes.published r.write; lanes = r.lanes.items } };

    ghost invariant = { λ r. passes.IsWriterOf (arc_value r.page) r.write
        × (r.spare + length (passes.published r.write) ≡ passes.room_of (arc_value r.page))
        × (passes.stride_of (arc_value r.page) ≡ item_length (arc_value r.case))
        × (arc_value (passes.keeps_of (arc_value r.page)).case ≡ arc_value r.case)
        × AreLanesOf (arc_value r.case) r.lanes.items };
}

fn mark_all(lanes: &mut Vec<Lane>)
    ensures { AreMarked lanes.old.items lanes.new.items }
{
    for k in 0..lanes.len() {
        lanes[k].mark();
    }
}

impl Reach {
    /// A reach that has published nothing, and has no page of any lane.
    pub(crate) fn of(
        worker: u32,
        case: Arc<Case, Global>,
        page: Arc<Page<CutKeeps>, Global>,
        write: WritePass<CutKeeps>,
        lanes: Vec<Lane>,
    ) -> Reach
        requires writer { passes.IsWriterOf (arc_value page) write × (passes.published write ≡ []) }
        requires stride { passes.stride_of (arc_value page) ≡ item_length (arc_value case) }
        requires case { arc_value (passes.keeps_of (arc_value page)).case ≡ arc_value case }
        requires lanes { AreLanesOf (arc_value case) lanes.items }
        ensures { result ≡ record { worker = worker; case = arc_value case; spare = passes.room_of (arc_value page); published = []; lanes = lanes.items } }
    {
        let spare = page.room();
        Reach {
            worker,
            case,
            page,
            write,
            spare,
            lanes,
        }
    }

    /// Publishes in another page from now on.
    pub(crate) fn turn_page(
        &mut self,
        page: Arc<Page<CutKeeps>, Global>,
        write: WritePass<CutKeeps>,
    )
        requires writer { passes.IsWriterOf (arc_value page) write × (passes.published write ≡ []) }
        requires stride { passes.stride_of (arc_value page) ≡ item_length self.old.case }
        requires case { arc_value (passes.keeps_of (arc_value page)).case ≡ self.old.case }
        ensures { self.new ≡ record self.old { spare = passes.room_of (arc_value page); published = [] } }
    {
        self.spare = page.room();
        self.page = page;
        self.write = write;
    }

    /// Sets the marks of `ready` on each lane.
    pub(crate) fn mark(&mut self)
        ensures same { (self.new.worker ≡ self.old.worker) × (self.new.case ≡ self.old.case) × (self.new.spare ≡ self.old.spare) × (self.new.published ≡ self.old.published) }
        ensures marked { AreMarked self.old.lanes self.new.lanes }
    {
        mark_all(&mut self.lanes);
    }

    /// Adds a page to a lane. Without memory it comes back.
    pub(crate) fn add(&mut self, lane: usize, held: Held) -> Result<(), AllocFailed<Held>>
        requires lane { lane < length self.old.lanes }
        requires fresh { (held.seen ≡ []) × IsSized held }
        requires case { held.case ≡ self.old.case }
        ensures ok { OnOk result (self.new ≡ record self.old { lanes = slice_set self.old.lanes lane (with_page (lane_at self.old lane) held) }) }
        ensures err { OnErr result (self.new ≡ self.old) }
        ensures back { IfErr result (λ failed. failed.value ≡ held) }
    {
        self.lanes[lane].add(held)
    }

    /// The case.
    pub(crate) fn case(&self) -> &Case
        ensures { result.now ≡ self.now.case }
    {
        &self.case
    }

    /// The number of lanes, one for each worker.
    pub fn lanes(&self) -> usize
        ensures { result ≡ length self.now.lanes }
    {
        self.lanes.len()
    }

    /// The number of pages of a lane.
    pub(crate) fn pages(&self, lane: usize) -> usize
        requires { lane < length self.now.lanes }
        ensures { result ≡ length (lane_at self.now lane).pages }
    {
        self.lanes[lane].pages()
    }

    /// The worker's number.
    pub fn worker(&self) -> u32
        ensures { result ≡ self.now.worker }
    {
        self.worker
    }

    /// For how many publications there is room.
    pub fn spare(&self) -> u32
        ensures { result ≡ self.now.spare }
    {
        self.spare
    }

    /// Publishes a cut, given by its words. It takes neither memory nor waiting.
    pub fn publish(&mut self, words: &[u64])
        requires spare { 1 ≤ self.old.spare }
        requires fact { SpellsPassing self.old.case words.now }
        ensures spare { self.new.spare + 1 ≡ self.old.spare }
        ensures published { self.new.published ≡ self.old.published ++ words.now ∷ [] }
        ensures same { (self.new.worker ≡ self.old.worker) × (self.new.case ≡ self.old.case) × (self.new.lanes ≡ self.old.lanes) }
    {
        self.page.publish(&mut self.write, words);
        self.spare -= 1;
    }

    /// The next cut of a lane that was not given yet. False comes exactly where no page of the lane is
    /// left, and then without a look, or where a look found that the page had no further item. It takes
    /// neither memory nor waiting.
    pub fn next(&mut self, lane: u32, into: &mut [u64]) -> bool
        requires lane { lane < length self.old.lanes }
        requires length { length into.old ≡ item_length self.old.case }
        ensures next { NextOf (lane_at self.old lane) (lane_at self.new lane) into.old into.new result }
        ensures fact { IsTrue result → SpellsPassing self.old.case into.new }
        ensures same { SameButLane self.old self.new lane }
        ensures length { length into.new ≡ length into.old }
    {
        self.lanes[lane as usize].next(into)
    }

    /// How many items of a lane were given.
    pub fn given(&self, lane: u32) -> u128
        requires { lane < length self.now.lanes }
        ensures { result ≡ length (given (lane_at self.now lane)) }
    {
        self.lanes[lane as usize].given()
    }
}
