//! What the items of the pool keep.
use cut_words::{are_passing_words, item_length};
use lpcc_case::Case;
use page::Keeps;
use std::alloc::Global;
use std::sync::Arc;

/// An item has the words of a cut that passes the test.
#[derive(Drop)]
pub struct CutKeeps {
    pub(crate) case: Arc<Case, Global>,
}

impl Keeps for CutKeeps {
    ghost use Rattle.std.specs.Arc.{arc_value};
    ghost use Rattle.cut_words.specs.Words.{item_length, SpellsPassing};

    ghost width = { λ k. item_length (arc_value k.case) };

    ghost fact = { λ k words. SpellsPassing (arc_value k.case) words };

    fn stride(&self) -> u32 {
        item_length(&self.case)
    }

    fn test(&self, words: &[u64]) -> bool {
        are_passing_words(&self.case, words)
    }
}
