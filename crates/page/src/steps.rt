//! The single steps on a page's words.
ghost use Rattle.std.specs.Prelude.{◌≡◌, ◌<◌, ◌≤◌, ◌+◌, [], ◌∷◌, ◌++◌, ℕ, suc, true, false, length, slice_index, slice_index_or};
ghost use Rattle.page.specs.Places.{place, word_count};
ghost use Rattle.page.specs.Rules.{newcomer, IsItem, Looked};

use crate::passes::Page;
use crate::rule::{Keeps, LooksAt, NewReader, ReadsWord, StoresHead, StoresWord, View};
use atomic_table::Seat;

/// Stores one word more of the item that is to be published next.
pub fn store_word<K: Keeps>(page: &Page<K>, seat: &mut Seat<u8, View<K>>, at: usize, word: u64)
    requires ours { seat.old.table_id ≡ page.now.table.shared.table_id }
    requires writes { seat.old.me.0.writes ≡ true }
    requires at { at ≡ place page.now.stride (length seat.old.me.0.seen) (suc (length seat.old.me.0.draft)) }
    requires room { length seat.old.me.0.seen < page.now.items }
    requires within { length seat.old.me.0.draft < page.now.stride }
    ensures ours { seat.new.table_id ≡ seat.old.table_id }
    ensures added { seat.new.me.0 ≡ record seat.old.me.0 { draft = seat.old.me.0.draft ++ word ∷ [] } }
{
    page.table.shared.store::<StoresWord>(seat, at, word);
}

/// Publishes the item whose words were stored.
pub fn store_head<K: Keeps>(page: &Page<K>, seat: &mut Seat<u8, View<K>>, at: usize)
    requires ours { seat.old.table_id ≡ page.now.table.shared.table_id }
    requires writes { seat.old.me.0.writes ≡ true }
    requires at { at ≡ place page.now.stride (length seat.old.me.0.seen) 0 }
    requires room { length seat.old.me.0.seen < page.now.items }
    requires whole { length seat.old.me.0.draft ≡ page.now.stride }
    requires fact { K.fact page.now.table.shared.key.keeps seat.old.me.0.draft }
    ensures ours { seat.new.table_id ≡ seat.old.table_id }
    ensures added { seat.new.me.0 ≡ record seat.old.me.0 { seen = seat.old.me.0.seen ++ seat.old.me.0.draft ∷ []; draft = [] } }
{
    page.table.shared.store::<StoresHead>(seat, at, 1);
}

/// Looks at the head of an item.
pub fn look<K: Keeps>(page: &Page<K>, seat: &mut Seat<u8, View<K>>, at: usize, i: u32) -> u64
    requires ours { seat.old.table_id ≡ page.now.table.shared.table_id }
    requires reads { seat.old.me.0.writes ≡ false }
    requires at { at ≡ place page.now.stride i 0 }
    requires room { i < page.now.items }
    requires seen { i ≤ length seat.old.me.0.seen }
    requires same { seat.old.me.0.key ≡ page.now.table.shared.key }
    ensures ours { seat.new.table_id ≡ seat.old.table_id }
    ensures looked { Looked page.now.stride (K.fact page.now.table.shared.key.keeps) i seat.old.me.0 result seat.new.me.0 }
{
    page.table.shared.load::<LooksAt>(seat, at)
}

/// Reads a word of an item that was seen.
pub fn read_word<K: Keeps>(
    page: &Page<K>,
    seat: &mut Seat<u8, View<K>>,
    at: usize,
    i: u32,
    k: usize,
) -> u64
    requires ours { seat.old.table_id ≡ page.now.table.shared.table_id }
    requires reads { seat.old.me.0.writes ≡ false }
    requires at { at ≡ place page.now.stride i (suc k) }
    requires room { i < page.now.items }
    requires seen { i < length seat.old.me.0.seen }
    requires within { k < page.now.stride }
    requires same { seat.old.me.0.key ≡ page.now.table.shared.key }
    ensures same { (seat.new.me ≡ seat.old.me) × (seat.new.table_id ≡ seat.old.table_id) }
    ensures word { result ≡ slice_index (slice_index_or seat.old.me.0.seen i []) k }
{
    page.table.shared.load::<ReadsWord>(seat, at)
}
