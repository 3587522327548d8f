//! The outer part of the machine, as values: the lanes, what each worker has read of them, and the
//! turns at the incumbent.
ghost use Rattle.std.specs.Prelude.{◌≡◌, ◌<◌, ◌+◌, ◌-◌, ◌^◌, ◌↔◌, [], IfOk, IsTrue, OnErr, OnOk, Some, length, replicate, slice_get, slice_index_or, slice_set};
ghost use Rattle.play.specs.declared.event.Event.TheVariants as event;
ghost use Rattle.play.specs.Lawful.{MayTake, lane_at, read_by};
ghost use Rattle.play.specs.Machines.{outer_after, outer_start};

use crate::Outcome;
use crate::same::same_cut;
use cuts::Cut;
use lp_base::Sequence;
use lpcc_case::Point;
use std::alloc::{AllocError, Global};
use std::marker::Model;

/// How many items of each lane a worker has read. Contracts see the list of these numbers.
#[derive(Drop)]
struct Counts {
    held: Vec<u64>,
}

impl Model for Counts {
    ghost use Rattle.std.specs.Prelude.{List, ℕ};

    ghost Value = { List ℕ };

    ghost view = { λ c. c.held.items };
}

impl Counts {
    /// Of one lane; 0 past the last one.
    fn of_lane(&self, lane: usize) -> u64
        ensures { result ≡ slice_index_or self.now lane 0 }
    {
        match self.held.get(lane) {
            Some(count) => *count,
            None => 0,
        }
    }

    /// One more of a lane.
    fn raise(&mut self, lane: usize)
        requires lane { lane < length self.old }
        requires room { slice_index_or self.old lane 0 < 2 ^ 64 - 1 }
        ensures { self.new ≡ slice_set self.old lane (slice_index_or self.old lane 0 + 1) }
    {
        self.held[lane] += 1;
    }
}

/// The lanes, for each worker the numbers of items read, and the turns. Contracts see these parts.
pub(crate) struct OuterState {
    lanes: Vec<Sequence<Cut>>,
    read: Vec<Counts>,
    turns: Sequence<Option<Point>>,
}

/// By a call, which keeps the models of the functions small that own one.
impl Drop for OuterState {
    fn drop(self) {
        let OuterState {
            lanes: _,
            read: _,
            turns: _,
        } = self;
    }
}

impl Model for OuterState {
    ghost use Rattle.std.specs.Prelude.{◌≡◌, All, length};
    ghost use Rattle.play.specs.Parts.{Outer};

    ghost Value = { Outer };

    ghost view = { λ o. record { lanes = o.lanes.items; read = o.read.items; turns = o.turns } };

    ghost invariant = { λ o. (length o.read.items ≡ length o.lanes.items) × All (λ row. length row ≡ length o.lanes.items) o.read.items };
}

fn empty_lanes(alloc: Global, workers: usize) -> Result<Vec<Sequence<Cut>>, AllocError>
    ensures { IfOk result (λ lanes. lanes.items ≡ replicate workers []) }
{
    let mut lanes = Vec::new(alloc);
    for _ in 0..workers {
        lanes.push(Sequence::new(alloc))?;
    }
    Ok(lanes)
}

fn nothing_read(alloc: Global, workers: usize) -> Result<Vec<Counts>, AllocError>
    ensures { IfOk result (λ read. read.items ≡ replicate workers (replicate workers 0)) }
{
    let mut read = Vec::new(alloc);
    for _ in 0..workers {
        let held = vec![in alloc; 0u64; workers]?;
        read.push(Counts { held })?;
    }
    Ok(read)
}

fn has_item(lane: &[Cut], place: usize, cut: &Cut) -> bool
    ensures { IsTrue result ↔ (slice_get lane.now place ≡ Some cut.now) }
{
    match lane.get(place) {
        Some(item) => same_cut(item, cut),
        None => false,
    }
}

impl OuterState {
    /// So many workers, and nothing has happened.
    pub(crate) fn start(alloc: Global, workers: u32) -> Result<OuterState, AllocError>
        ensures { IfOk result (λ o. o ≡ outer_start workers) }
    {
        let lanes = empty_lanes(alloc, workers as usize)?;
        let read = nothing_read(alloc, workers as usize)?;
        Ok(OuterState {
            lanes,
            read,
            turns: Sequence::new(alloc),
        })
    }

    /// The number of workers, each with a lane.
    pub(crate) fn workers(&self) -> usize
        ensures { result ≡ length self.now.lanes }
    {
        self.lanes.len()
    }

    fn lane(&self, lane: u32) -> &[Cut]
        ensures { result.now ≡ lane_at self.now lane }
    {
        match self.lanes.get(lane as usize) {
            Some(items) => items.as_slice(),
            None => &[],
        }
    }

    fn read_by(&self, worker: u32, lane: u32) -> u64
        ensures { result ≡ read_by self.now worker lane }
    {
        match self.read.get(worker as usize) {
            Some(counts) => counts.of_lane(lane as usize),
            None => 0,
        }
    }

    /// Whether the item is the next that the worker reads on this lane.
    pub(crate) fn may_read(&self, worker: u32, lane: u32, place: u128) -> bool
        ensures next { IsTrue result ↔ ((place ≡ read_by self.now worker lane) × (place < length (lane_at self.now lane))) }
        ensures few { IsTrue result → place < 2 ^ 64 - 1 }
    {
        place == u128::from(self.read_by(worker, lane)) && place < self.lane(lane).len() as u128
    }

    /// Whether the worker has read the cut at this place of another lane.
    fn has_read(&self, worker: u32, lane: u32, place: u128, cut: &Cut) -> bool
        ensures { IsTrue result ↔ ((slice_get (lane_at self.now lane) place ≡ Some cut.now) × (place < read_by self.now worker lane)) }
    {
        place < u128::from(self.read_by(worker, lane))
            && has_item(self.lane(lane), place as usize, cut)
    }

    /// Whether the lanes hold what the outcome names.
    pub(crate) fn may_take(&self, worker: u32, outcome: &Outcome) -> bool
        ensures { IsTrue result ↔ MayTake self.now worker outcome.now }
    {
        match outcome {
            Outcome::Barred {
                lane,
                place,
                cut,
                ..
            } => *lane != worker && self.has_read(worker, *lane, *place, cut),
            _ => true,
        }
    }

    /// The lane grows by the cut. Without memory nothing changes.
    pub(crate) fn publish(&mut self, lane: u32, cut: Cut) -> Result<(), AllocError>
        requires { lane < length self.old.lanes }
        ensures ok { OnOk result (self.new ≡ outer_after (event.Publish lane cut) self.old) }
        ensures err { OnErr result (self.new ≡ self.old) }
    {
        self.lanes[lane as usize].push(cut)
    }

    /// The worker has read one item more of the lane.
    pub(crate) fn read(&mut self, worker: u32, lane: u32, place: u128)
        requires worker { worker < length self.old.lanes }
        requires lane { lane < length self.old.lanes }
        requires next { place ≡ read_by self.old worker lane }
        requires few { place < 2 ^ 64 - 1 }
        ensures { self.new ≡ outer_after (event.Read worker lane place) self.old }
    {
        self.read[worker as usize].raise(lane as usize);
    }

    /// There is one turn more, with this offer. Without memory nothing changes.
    pub(crate) fn offer(&mut self, worker: u32, point: Option<Point>) -> Result<(), AllocError>
        ensures ok { OnOk result (self.new ≡ outer_after (event.Offer worker point) self.old) }
        ensures err { OnErr result (self.new ≡ self.old) }
    {
        self.turns.push(point)
    }
}
