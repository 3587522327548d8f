//! A lane, as one reach reads it.
ghost use Rattle.std.specs.Prelude.{◌≡◌, ◌<◌, ◌≤◌, ◌^◌, ◌+◌, ◌++◌, ◌∷◌, [], IsTrue, All, false, length, OnOk, OnErr, IfErr, slice_get, Some};
ghost use Rattle.lpcc_case.specs.Instance.{Instance};
ghost use Rattle.cut_words.specs.Words.{item_length, SpellsPassing};
ghost use Rattle.cut_pool.specs.Pages.{PageView, given_of, IsAt, IsSized};
ghost use Rattle.cut_pool.specs.Lanes.{LaneView, given, ArePagesOf, NextOf, HaveLength, GivesNext, StepsOn};

use crate::held::Held;
use std::alloc::{AllocFailed, Global};
use std::marker::Model;

/// A lane of pages, with what was given of it. Contracts see the pages and what the passes have seen.
pub struct Lane {
    held: Vec<Held>,
    at: usize,
    place: u32,
    given: u128,
    at_ready: u128,
    dry: bool,
}

/// By a call, which keeps the models of the functions small that own one.
impl Drop for Lane {
    fn drop(self) {
        let Lane {
            held: _,
            at: _,
            place: _,
            given: _,
            at_ready: _,
            dry: _,
        } = self;
    }
}

impl Model for Lane {
    ghost use Rattle.std.specs.Prelude.{◌≡◌, ◌≤◌, length};
    ghost use Rattle.cut_pool.specs.Pages.{given_of, IsAt};
    ghost use Rattle.cut_pool.specs.Lanes.{LaneView};

    ghost Value = { LaneView };

    ghost view = { λ l. record { pages = l.held.items; at_ready = l.at_ready; dry = l.dry } };

    ghost invariant = { λ l. IsAt l.held.items l.at l.place × (l.given ≡ length (given_of l.held.items)) };
}

/// The next item of the first page that is not used up.
fn next_of(held: &mut Vec<Held>, at: usize, place: u32, into: &mut [u64]) -> bool
    requires at { IsAt held.old.items at place }
    requires within { at < length held.old.items }
    requires length { HaveLength (length into.old) held.old.items }
    ensures gives { GivesNext held.old.items at held.new.items into.old into.new result }
    ensures length { length into.new ≡ length into.old }
{
    held[at].next(place, into)
}

/// Where the lane goes on behind this item.
fn step_on(held: &Vec<Held>, at: usize, place: u32) -> (usize, u32)
    requires within { at < length held.now.items }
    requires room { (p : PageView) → slice_get held.now.items at ≡ Some p → place < p.room }
    requires small { place + 1 < 2 ^ 32 }
    ensures { (p : PageView) → slice_get held.now.items at ≡ Some p → StepsOn p.room at place result }
{
    if place + 1 == held[at].room() {
        (at + 1, 0)
    } else {
        (at, place + 1)
    }
}

impl Lane {
    /// A lane without pages.
    pub fn new(alloc: Global) -> Lane
        ensures { result ≡ record { pages = []; at_ready = 0; dry = false } }
    {
        Lane {
            held: Vec::new(alloc),
            at: 0,
            place: 0,
            given: 0,
            at_ready: 0,
            dry: false,
        }
    }

    /// The number of pages.
    pub fn pages(&self) -> usize
        ensures { result ≡ length self.now.pages }
    {
        self.held.len()
    }

    /// The number of items that were given.
    pub fn given(&self) -> u128
        ensures { result ≡ length (given self.now) }
    {
        self.given
    }

    /// Sets the marks of `ready`: what was given up to now, and that nothing was found wanting since.
    pub fn mark(&mut self)
        ensures { self.new ≡ record { pages = self.old.pages; at_ready = length (given self.old); dry = false } }
    {
        self.at_ready = self.given;
        self.dry = false;
    }

    /// Adds a page behind the others. Without memory it comes back.
    pub fn add(&mut self, held: Held) -> Result<(), AllocFailed<Held>>
        requires fresh { (held.seen ≡ []) × IsSized held }
        ensures ok { OnOk result (self.new ≡ record { pages = self.old.pages ++ held ∷ []; at_ready = self.old.at_ready; dry = self.old.dry }) }
        ensures err { OnErr result (self.new ≡ self.old) }
        ensures back { IfErr result (λ failed. failed.value ≡ held) }
    {
        self.held.push(held)
    }

    /// The next item that was not given yet.
    pub fn next(&mut self, into: &mut [u64]) -> bool
        requires length { HaveLength (length into.old) self.old.pages }
        ensures next { NextOf self.old self.new into.old into.new result }
        ensures fact { (a : Instance) → ArePagesOf a self.old.pages → IsTrue result → SpellsPassing a into.new }
        ensures length { length into.new ≡ length into.old }
    {
        if self.at == self.held.len() {
            self.dry = true;
            return false;
        }
        if !next_of(&mut self.held, self.at, self.place, into) {
            self.dry = true;
            return false;
        }
        (self.at, self.place) = step_on(&self.held, self.at, self.place);
        self.given += 1;
        true
    }
}
