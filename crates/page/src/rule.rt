//! What the words of a page keep between any two steps, and what each kind of step tells.
ghost use Rattle.std.specs.Prelude.{◌≡◌, ◌≤◌, ◌↔◌, ℕ, List, IsTrue};

use atomic_table::{Play, Split, TableRule};
use std::collections::LinkedList;
use std::marker::PhantomData;

/// A fact of items, with its test. Each item has `width` words, of 64 bits each.
pub trait Keeps {
    ghost width: { Self → ℕ };

    ghost fact: { Self → List ℕ → Type 0 };

    /// The number of words of an item, at least 1.
    fn stride(&self) -> u32
        ensures { (result ≡ width self.now) × (1 ≤ width self.now) };

    /// Whether these words have the fact.
    fn test(&self, words: &[u64]) -> bool
        ensures { IsTrue result ↔ fact self.now words.now };
}

/// What a page is told when it is made: the fact, the number of words of an item, and for how many
/// items there is room.
#[derive(Drop)]
pub struct PageKey<K> {
    pub keeps: K,
    pub stride: u32,
    pub items: u32,
}

/// The looks of a pass at heads: how many, and of the last one the item, the word that it found and
/// the number of items that the page had. No value of it is made.
pub struct Look {
    pub loads: u64,
    pub place: u64,
    pub word: u64,
    pub count: u64,
}

/// What a pass knows. The writer's view has the items that are published, and the words that are
/// stored behind them; a reader's has the items that it has seen, and its last look. No value of it
/// is made.
pub struct View<K> {
    pub key: PageKey<K>,
    pub writes: bool,
    pub seen: LinkedList<LinkedList<u64>>,
    pub draft: LinkedList<u64>,
    pub look: Look,
}

/// The rule of a page: one pass writes, the heads that are 1 come first, and the items behind these
/// heads are those of the writer's view, of which each reader has seen a beginning.
pub struct OneWriter<K>(PhantomData<K>);

impl<K: Keeps> TableRule<u8, View<K>, PageKey<K>> for OneWriter<K> {
    ghost use Rattle.std.specs.Prelude.{true};
    ghost use Rattle.page.specs.Rules.{Kept, newcomer};

    ghost holds = { λ key s. Kept key.stride (K.fact key.keeps) key s };

    ghost first = { λ key. newcomer key true };
}

/// The writer stores a word of the item that comes next.
pub struct StoresWord;

impl<K: Keeps> Play<u8, View<K>> for StoresWord {
    ghost use Rattle.page.specs.Rules as rules;

    ghost then = { rules.StoresWord };
}

/// The writer stores the head of that item, and so publishes it.
pub struct StoresHead;

impl<K: Keeps> Play<u8, View<K>> for StoresHead {
    ghost use Rattle.page.specs.Rules as rules;

    ghost then = { rules.StoresHead };
}

/// A reader loads the head of an item. Where it is 1, its view takes the whole item.
pub struct LooksAt;

impl<K: Keeps> Play<u8, View<K>> for LooksAt {
    ghost use Rattle.page.specs.Rules as rules;

    ghost then = { λ step me found after. rules.LooksAt me.0.key.stride (K.fact me.0.key.keeps) step me found after };
}

/// A reader loads a word of an item that it has seen.
pub struct ReadsWord;

impl<K: Keeps> Play<u8, View<K>> for ReadsWord {
    ghost use Rattle.page.specs.Rules as rules;

    ghost then = { λ step me found after. rules.ReadsWord me.0.key.stride step me found after };
}

/// A new reader, which has seen nothing, beside a pass that stays as it is.
pub struct NewReader;

impl<K: Keeps> Split<View<K>> for NewReader {
    ghost use Rattle.std.specs.Prelude.{false};
    ghost use Rattle.page.specs.Rules.{newcomer};

    ghost left = { λ v. v };

    ghost right = { λ v. newcomer v.key false };
}
