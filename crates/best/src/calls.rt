//! The calls on a best.
ghost use Rattle.std.specs.Prelude.{◌≡◌, ◌<◌, ◌≤◌, ◌+◌, [], ◌∷◌, ◌++◌, ℕ, List, Option, Some, None, Bool, true, false, length, All, IfOk, OnErr, IfSome, IfNone, MatchOption, MatchResult};
ghost use Rattle.best.specs.Passes.{IsPassOf, IsNewPassOf, AddsTurn, newest_seen, seen, last_of};
ghost use Rattle.best.specs.Rules.{maker};

use crate::Entry;
use crate::passes::{Best, BestPass};
use crate::rule::View;
use crate::steps::{draw_ticket, new_pass};
use crate::turn::{copy_of, take_turn};
use atomic_table::{Seat, Table};
use std::alloc::{AllocError, Global};
use std::sync::Wait;

/// An empty history, and the seat that makes the passes.
fn open<T: Entry>(
    alloc: Global,
    passes: u32,
) -> Result<(Best<T>, Seat<Option<T>, View<T>>), AllocError>
    ensures ours { IfOk result (λ made. made.1.table_id ≡ made.0.table.shared.table_id) }
    ensures maker { IfOk result (λ made. made.1.me ≡ (maker passes, [])) }
{
    let (table, seat) = Table::vacant(alloc, &[0, 0], 1, &passes)?;
    Ok((Best { table }, seat))
}

/// A pass that has seen nothing.
fn make_pass<T: Entry>(best: &Best<T>, seat: &mut Seat<Option<T>, View<T>>) -> BestPass<T>
    requires ours { seat.old.table_id ≡ best.now.table.shared.table_id }
    requires idle { (seat.old.me.0.waits ≡ false) × (seat.old.me.0.turns ≡ false) }
    requires some_left { 0 < seat.old.me.0.makes }
    ensures new { IsNewPassOf best.now result }
    ensures ours { seat.new.table_id ≡ seat.old.table_id }
    ensures idle { (seat.new.me.0.waits ≡ false) × (seat.new.me.0.turns ≡ false) }
    ensures left { seat.new.me.0.makes + 1 ≡ seat.old.me.0.makes }
{
    BestPass {
        seat: new_pass(best, seat),
        last: None,
    }
}

fn make_passes<T: Entry>(
    best: &Best<T>,
    alloc: Global,
    mut seat: Seat<Option<T>, View<T>>,
    passes: u32,
) -> Result<Vec<BestPass<T>>, AllocError>
    requires ours { seat.table_id ≡ best.now.table.shared.table_id }
    requires maker { seat.me ≡ (maker passes, []) }
    ensures count { IfOk result (λ made. length made.items ≡ passes) }
    ensures new { IfOk result (λ made. All (IsNewPassOf best.now) made.items) }
{
    let mut made = Vec::with_capacity(alloc, passes as usize)?;
    for _ in 0..passes {
        made.push(make_pass(best, &mut seat))?;
    }
    Ok(made)
}

impl<T: Entry> Best<T> {
    /// A best with an empty history, and so many passes.
    pub fn create(alloc: Global, passes: u32) -> Result<(Best<T>, Vec<BestPass<T>>), AllocError>
        ensures count { IfOk result (λ made. length made.1.items ≡ passes) }
        ensures new { IfOk result (λ made. All (IsNewPassOf made.0) made.1.items) }
    {
        let (best, seat) = open(alloc, passes)?;
        let made = make_passes(&best, alloc, seat, passes)?;
        Ok((best, made))
    }

    /// Offers an entry or none, and gives a copy of the newest entry. The offer becomes the newest
    /// entry exactly where it is below the one before, or there was none. After an error the turn is
    /// made, with its offer, and `glance` gives what it gave.
    pub fn exchange<R: Wait>(
        &self,
        rt: &R,
        alloc: Global,
        pass: &mut BestPass<T>,
        offer: Option<T>,
    ) -> Result<Option<T>, AllocError>
        requires ours { IsPassOf self.now pass.old }
        ensures ours { IsPassOf self.now pass.new }
        ensures turn { AddsTurn offer (seen pass.old) (seen pass.new) }
        ensures newest { IfOk result (λ x. x ≡ newest_seen T.is_lower pass.new) }
        ensures last { MatchResult result (λ x. last_of pass.new ≡ x) (λ _. last_of pass.new ≡ last_of pass.old) }
    {
        let ticket = draw_ticket(self, &mut pass.seat);
        let newest = take_turn(rt, self, alloc, &mut pass.seat, ticket, offer)?;
        let answer = copy_of(alloc, &newest)?;
        pass.last = newest;
        Ok(answer)
    }

    /// The entry that the last exchange of this pass gave, if it gave one. It takes neither memory nor
    /// waiting.
    pub fn glance(pass: &BestPass<T>) -> Option<&T>
        ensures { MatchOption result (last_of pass.now ≡ None) (λ x. last_of pass.now ≡ Some x.now) }
    {
        pass.last.as_ref()
    }
}
