//! The shelf: where pages are opened, and from where their passes are taken.
ghost use Rattle.std.specs.Prelude.{◌≡◌, ◌<◌, ◌≤◌, ◌↔◌, ℕ, List, [], IsTrue, IfOk, OnOk, OnErr, length, slice_index_or};
ghost use Rattle.std.specs.Arc.{arc_value};
ghost use Rattle.cut_pool.specs.Reaches.{ReachView, TookAll, Turned, TurnedPage};
ghost use Rattle.cut_pool.specs.Shelves.{ShelfView, Fits, HasAll, Readied, IsNewReach, SameButRow};

use crate::cases::same_case;
use crate::counts::has_counts;
use crate::handing::{Handed, OpenedLane, take_all};
use crate::opening::{hand_first, open_lanes, open_more};
use crate::reach::Reach;
use crate::rooms::FIRST_ROOM;
use lpcc_case::Case;
use std::alloc::{AllocError, Global};
use std::marker::Model;
use std::sync::Arc;

/// Where the pages of all lanes are opened and handed out.
pub struct Shelf {
    case: Arc<Case, Global>,
    lanes: Vec<OpenedLane>,
    rooms: Vec<u32>,
    handed: Vec<Handed>,
}

/// By a call, which keeps the models of the functions small that own one.
impl Drop for Shelf {
    fn drop(self) {
        let Shelf {
            case: _,
            lanes: _,
            rooms: _,
            handed: _,
        } = self;
    }
}

impl Model for Shelf {
    ghost use Rattle.std.specs.Prelude.{length, map};
    ghost use Rattle.std.specs.Arc.{arc_value};
    ghost use Rattle.cut_pool.specs.Shelves.{ShelfView};
    ghost use Rattle.cut_pool.specs.Opened.{IsShelf};

    ghost Value = { ShelfView };

    ghost view = { λ s. record { case = arc_value s.case; pages = map length s.lanes.items; handed = s.handed.items } };

    ghost invariant = { λ s. IsShelf (arc_value s.case) s.lanes.items s.rooms.items s.handed.items };
}

impl Shelf {
    /// The case, which the shelf shares with its pages and its reaches.
    pub fn case(&self) -> &Arc<Case, Global>
        ensures { arc_value result.now ≡ self.now.case }
    {
        &self.case
    }

    /// Whether the worker is one of the shelf's, and the reach has its number, the shelf's case and as
    /// many pages of each lane as were handed to it. It takes no memory.
    pub fn fits(&self, worker: u32, reach: &Reach) -> bool
        ensures { IsTrue result ↔ Fits self.now worker reach.now }
    {
        if worker as usize >= self.lanes.len() {
            return false;
        }
        if reach.worker() != worker {
            return false;
        }
        if reach.lanes() != self.lanes.len() {
            return false;
        }
        if !has_counts(self.handed[worker as usize].as_slice(), reach) {
            return false;
        }
        same_case(reach.case(), &self.case)
    }

    /// Opens a page behind those of a worker's lane.
    fn open(&mut self, alloc: Global, worker: usize, reach: &mut Reach) -> Result<(), AllocError>
        requires known { worker < length self.old.pages }
        requires case { reach.old.case ≡ self.old.case }
        ensures ok { OnOk result (TurnedPage reach.old reach.new) }
        ensures err { OnErr result (reach.new ≡ reach.old) }
        ensures same { (self.new.case ≡ self.old.case) × (self.new.handed ≡ self.old.handed) }
        ensures count { length self.new.pages ≡ length self.old.pages }
    {
        open_more(
            alloc,
            &self.case,
            &mut self.lanes,
            &mut self.rooms,
            worker,
            reach,
        )
    }

    /// Turns a reach to a new page where it has no room for a publication.
    #[tactic(auto, using(crate::proofs::Readying::rests))]
    fn turn(&mut self, alloc: Global, worker: usize, reach: &mut Reach) -> Result<(), AllocError>
        requires { Fits self.old worker reach.old }
        ensures fits { Fits self.new worker reach.new }
        ensures turned { Turned reach.old reach.new }
        ensures ok { OnOk result (1 ≤ reach.new.spare) }
        ensures rest { SameButRow self.old self.new worker }
    {
        if reach.spare() > 0 {
            return Ok(());
        }
        self.open(alloc, worker, reach)
    }

    /// Hands every pass that a worker has not yet to its reach.
    fn hand_out(&mut self, worker: usize, reach: &mut Reach) -> Result<(), AllocError>
        requires { Fits self.old worker reach.old }
        ensures fits { Fits self.new worker reach.new }
        ensures took { (from : List ℕ) × (to : List ℕ) × TookAll reach.old reach.new from to }
        ensures all { OnOk result (HasAll self.new reach.new) }
        ensures rest { SameButRow self.old self.new worker }
    {
        take_all(&mut self.lanes, &mut self.handed[worker], worker, reach)
    }

    /// Readies a worker for its next turn: sets the marks of its lanes, opens a page in its lane where
    /// it has no room for a publication, and hands it a pass to every page to which it has none. Each
    /// page has room for twice as many items as the one before, and for at most 1,024. Without memory
    /// the shelf and the reach may have new pages and passes. It changes nothing that was handed to
    /// another worker.
    #[tactic(auto, using(crate::proofs::Readying::rests))]
    pub fn ready(&mut self, alloc: Global, worker: u32, reach: &mut Reach) -> Result<(), AllocError>
        requires { Fits self.old worker reach.old }
        ensures fits { Fits self.new worker reach.new }
        ensures readied { Readied reach.old reach.new }
        ensures ok { OnOk result ((1 ≤ reach.new.spare) × HasAll self.new reach.new) }
        ensures rest { SameButRow self.old self.new worker }
    {
        reach.mark();
        self.turn(alloc, worker as usize, reach)?;
        self.hand_out(worker as usize, reach)
    }

    /// A shelf with a first page of 16 items for each worker, and the reaches of the workers, each with
    /// a pass to each page. They share one copy of the case.
    pub fn create(
        alloc: Global,
        case: &Case,
        workers: u32,
    ) -> Result<(Shelf, Vec<Reach>), AllocError>
        requires { 1 ≤ workers }
        ensures shelf { IfOk result (λ made. (made.0.case ≡ case.now) × (length made.0.pages ≡ workers)) }
        ensures count { IfOk result (λ made. length made.1.items ≡ workers) }
        ensures reaches { IfOk result (λ made. (k : ℕ) (d : ReachView) → k < workers → IsNewReach made.0 k (slice_index_or made.1.items k d)) }
    {
        let case = Arc::new(alloc, case.copy(alloc)?)?;
        let (mut lanes, mut reaches) = open_lanes(alloc, &case, workers)?;
        let handed = hand_first(alloc, &case, &mut lanes, &mut reaches)?;
        let rooms = vec![in alloc; FIRST_ROOM; workers as usize]?;
        let shelf = Shelf {
            case,
            lanes,
            rooms,
            handed,
        };
        Ok((shelf, reaches))
    }
}
