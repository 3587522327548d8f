//! A page that a reach reads.
ghost use Rattle.std.specs.Prelude.{◌≡◌, ◌<◌, ◌≤◌, ◌^◌, ◌+◌, ◌++◌, ◌∷◌, [], IsTrue, length};
ghost use Rattle.std.specs.Arc.{arc_value};
ghost use Rattle.page.specs.Passes as passes;
ghost use Rattle.cut_words.specs.Words.{item_length, SpellsPassing};
ghost use Rattle.cut_pool.specs.Pages.{PageView};

use crate::keeps::CutKeeps;
use page::{Page, ReadPass};
use std::alloc::Global;
use std::marker::Model;
use std::sync::Arc;

/// A page of a lane, with a pass to it. Contracts see what the pass has seen.
pub struct Held {
    page: Arc<Page<CutKeeps>, Global>,
    pass: ReadPass<CutKeeps>,
    room: u32,
}

/// By a call, which keeps the models of the functions small that own one.
impl Drop for Held {
    fn drop(self) {
        let Held {
            page: _,
            pass: _,
            room: _,
        } = self;
    }
}

impl Model for Held {
    ghost use Rattle.std.specs.Prelude.{◌≡◌, ◌<◌};
    ghost use Rattle.std.specs.Arc.{arc_value};
    ghost use Rattle.cut_words.specs.Words.{item_length};
    ghost use Rattle.page.specs.Passes as passes;
    ghost use Rattle.cut_pool.specs.Pages.{PageView};

    ghost Value = { PageView };

    ghost view = { λ h. record { case = arc_value (passes.keeps_of (arc_value h.page)).case; room = h.room; seen = passes.seen h.pass; look = passes.look_of h.pass } };

    ghost invariant = { λ h. passes.IsReaderOf (arc_value h.page) h.pass × (h.room ≡ passes.room_of (arc_value h.page)) × (passes.stride_of (arc_value h.page) ≡ item_length (arc_value (passes.keeps_of (arc_value h.page)).case)) };
}

impl Held {
    /// A page with a pass that has seen nothing of it.
    pub fn of(page: Arc<Page<CutKeeps>, Global>, pass: ReadPass<CutKeeps>) -> Held
        requires ours { passes.IsNewReaderOf (arc_value page) pass }
        requires stride { passes.stride_of (arc_value page) ≡ item_length (arc_value (passes.keeps_of (arc_value page)).case) }
        ensures { (result.seen ≡ []) × (result.room ≡ passes.room_of (arc_value page)) × (result.case ≡ arc_value (passes.keeps_of (arc_value page)).case) }
    {
        let room = page.room();
        Held { page, pass, room }
    }

    /// For how many items there is room.
    pub fn room(&self) -> u32
        ensures { result ≡ self.now.room }
    {
        self.room
    }

    /// The next item of the page, where it is there.
    pub fn next(&mut self, place: u32, into: &mut [u64]) -> bool
        requires place { place ≡ length self.old.seen }
        requires left { place < self.old.room }
        requires length { length into.old ≡ item_length self.old.case }
        ensures same { (self.new.case ≡ self.old.case) × (self.new.room ≡ self.old.room) }
        ensures given { IsTrue result → self.new.seen ≡ self.old.seen ++ into.new ∷ [] }
        ensures fact { IsTrue result → SpellsPassing self.old.case into.new }
        ensures none { (IsTrue result → ⊥) → (self.new.seen ≡ self.old.seen) × (into.new ≡ into.old) × (self.new.look.count ≤ place) }
        ensures looked { (self.new.look.loads ≡ self.old.look.loads + 1) × (self.new.look.place ≡ place) }
        ensures length { length into.new ≡ length into.old }
    {
        self.page.read(&mut self.pass, place, into)
    }
}
