//! A page and its passes.
ghost use Rattle.std.specs.Prelude.{◌≡◌, ◌≤◌};
ghost use Rattle.page.specs.Places.{word_count};

use crate::rule::{Keeps, OneWriter, PageKey, View};
use atomic_table::{Seat, Table};
use std::alloc::Global;

/// The words of a page under its rule.
pub type Words<K> = Table<u8, View<K>, PageKey<K>, OneWriter<K>, Global>;

/// A page with room for a fixed number of items, each of which keeps the fact of `K`. Threads share
/// it by `&`.
#[derive(Drop)]
pub struct Page<K: Keeps> {
    pub(crate) table: Words<K>,
    pub(crate) stride: u32,
    pub(crate) items: u32,
    ghost stride_is: { stride ≡ table.shared.key.stride },
    ghost items_is: { items ≡ table.shared.key.items },
    ghost words_is: { table.shared.table_id.words ≡ word_count stride items },
}

/// The pass that publishes in a page. There is one for each page.
#[derive(Drop)]
pub struct WritePass<K> {
    pub(crate) seat: Seat<u8, View<K>>,
    pub(crate) count: u32,
}

/// A pass that reads a page. It is of one reader, and may cross threads.
#[derive(Drop)]
pub struct ReadPass<K> {
    pub(crate) seat: Seat<u8, View<K>>,
}
