//! Opening pages: the first of each lane, and one behind those of a lane.
ghost use Rattle.std.specs.Prelude.{◌≡◌, ◌<◌, ◌≤◌, ◌*◌, ◌^◌, ℕ, List, [], IfOk, OnOk, OnErr, All, length, map, min, replicate, slice_index, slice_index_or, slice_set};
ghost use Rattle.std.specs.Arc.{arc_value};
ghost use Rattle.cut_pool.specs.Opened.{IsFirstLane, IsRoom, RowWaits};
ghost use Rattle.cut_pool.specs.Reaches.{ReachView, TookAll, TurnedPage, bare_reach, no_lane};
ghost use Rattle.cut_pool.specs.declared.rooms.TheConstants.{MOST_ROOM};

use crate::handing::{Handed, OpenedLane, take_all};
use crate::lane::Lane;
use crate::opened::open_page;
use crate::reach::Reach;
use crate::rooms::{FIRST_ROOM, next_room};
use lpcc_case::Case;
use std::alloc::{AllocError, Global};
use std::sync::Arc;

/// Opens a page behind those of a worker's lane, with a pass for each worker, and turns the worker's
/// reach to it. Without memory nothing changes.
pub fn open_more(
    alloc: Global,
    case: &Arc<Case, Global>,
    lanes: &mut Vec<OpenedLane>,
    rooms: &mut Vec<u32>,
    worker: usize,
    reach: &mut Reach,
) -> Result<(), AllocError>
    requires known { worker < length lanes.old.items }
    requires few { length lanes.old.items < 2 ^ 32 }
    requires rooms { length rooms.old.items ≡ length lanes.old.items }
    requires sized { All IsRoom rooms.old.items }
    requires case { reach.old.case ≡ arc_value case.now }
    ensures ok { OnOk result (TurnedPage reach.old reach.new) }
    ensures err { OnErr result (reach.new ≡ reach.old) }
    ensures waits { (w : ℕ) (row : List ℕ) → w < length lanes.old.items
        → RowWaits (arc_value case.now) lanes.old.items row w → RowWaits (arc_value case.now) lanes.new.items row w }
    ensures count { length lanes.new.items ≡ length lanes.old.items }
    ensures rooms { (length rooms.new.items ≡ length rooms.old.items) × All IsRoom rooms.new.items }
    ensures twice { OnOk result (rooms.new.items ≡ slice_set rooms.old.items worker (min (2 * slice_index rooms.old.items worker) MOST_ROOM)) }
{
    let workers = lanes.len() as u32;
    let room = next_room(rooms[worker]);
    let (page, write, opened) = open_page(alloc, case, workers, room)?;
    lanes[worker].push(opened)?;
    rooms[worker] = room;
    reach.turn_page(page, write);
    Ok(())
}

fn bare_lanes(alloc: Global, workers: usize) -> Result<Vec<Lane>, AllocError>
    ensures { IfOk result (λ made. made.items ≡ replicate workers no_lane) }
{
    let mut lanes = Vec::with_capacity(alloc, workers)?;
    for _ in 0..workers {
        lanes.push(Lane::new(alloc))?;
    }
    Ok(lanes)
}

/// The first page of a worker's lane, and its reach without any pass that reads.
fn open_first(
    alloc: Global,
    case: &Arc<Case, Global>,
    workers: u32,
    worker: u32,
) -> Result<(OpenedLane, Reach), AllocError>
    ensures lane { IfOk result (λ made. IsFirstLane (arc_value case.now) workers made.0) }
    ensures reach { IfOk result (λ made. made.1 ≡ bare_reach (arc_value case.now) workers worker) }
{
    let (page, write, opened) = open_page(alloc, case, workers, FIRST_ROOM)?;
    let mut lane = OpenedLane::new(alloc);
    lane.push(opened)?;
    let lanes = bare_lanes(alloc, workers as usize)?;
    let reach = Reach::of(worker, Arc::try_clone(case)?, page, write, lanes);
    Ok((lane, reach))
}

/// The first page of each lane, and the reaches without any pass that reads.
pub fn open_lanes(
    alloc: Global,
    case: &Arc<Case, Global>,
    workers: u32,
) -> Result<(Vec<OpenedLane>, Vec<Reach>), AllocError>
    ensures counts { IfOk result (λ made. (length made.0.items ≡ workers) × (length made.1.items ≡ workers)) }
    ensures lanes { IfOk result (λ made. All (IsFirstLane (arc_value case.now) workers) made.0.items) }
    ensures reaches { IfOk result (λ made. (k : ℕ) (d : ReachView) → k < workers
        → slice_index_or made.1.items k d ≡ bare_reach (arc_value case.now) workers k) }
{
    let mut lanes = Vec::with_capacity(alloc, workers as usize)?;
    let mut reaches = Vec::with_capacity(alloc, workers as usize)?;
    for worker in 0..workers {
        let (lane, reach) = open_first(alloc, case, workers, worker)?;
        lanes.push(lane)?;
        reaches.push(reach)?;
    }
    Ok((lanes, reaches))
}

/// Hands the passes to the first pages out, and gives how many each worker has.
pub fn hand_first(
    alloc: Global,
    case: &Arc<Case, Global>,
    lanes: &mut Vec<OpenedLane>,
    reaches: &mut Vec<Reach>,
) -> Result<Vec<Handed>, AllocError>
    requires count { length reaches.old.items ≡ length lanes.old.items }
    requires lanes { All (IsFirstLane (arc_value case.now) (length lanes.old.items)) lanes.old.items }
    requires reaches { (k : ℕ) (d : ReachView) → k < length lanes.old.items
        → slice_index_or reaches.old.items k d ≡ bare_reach (arc_value case.now) (length lanes.old.items) k }
    ensures counts { IfOk result (λ made. (length made.items ≡ length lanes.old.items) × (length reaches.new.items ≡ length lanes.old.items)) }
    ensures pages { map length lanes.new.items ≡ map length lanes.old.items }
    ensures waits { IfOk result (λ made. (w : ℕ) → w < length lanes.old.items
        → RowWaits (arc_value case.now) lanes.new.items (slice_index_or made.items w []) w) }
    ensures all { IfOk result (λ made. (w : ℕ) → w < length lanes.old.items
        → slice_index_or made.items w [] ≡ map length lanes.old.items) }
    ensures took { IfOk result (λ made. (w : ℕ) (d : ReachView) → w < length lanes.old.items
        → TookAll (bare_reach (arc_value case.now) (length lanes.old.items) w) (slice_index_or reaches.new.items w d)
        (replicate (length lanes.old.items) 0) (map length lanes.old.items)) }
{
    let count = lanes.len();
    let mut handed = Vec::with_capacity(alloc, count)?;
    for worker in 0..count {
        let mut row = Handed::none(alloc, count)?;
        take_all(lanes, &mut row, worker, &mut reaches[worker])?;
        handed.push(row)?;
    }
    Ok(handed)
}
