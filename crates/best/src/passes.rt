//! The best and its passes.
ghost use Rattle.std.specs.Prelude.{◌≡◌};

use crate::Entry;
use crate::rule::{InTurns, View};
use atomic_table::{Seat, Table};
use std::alloc::Global;

/// The words and the slot under their rule.
pub type Words<T> = Table<Option<T>, View<T>, u32, InTurns<T>, Global>;

/// The lowest entry that was offered, in a slot that whoever is in its turn alone reads and writes.
/// Threads share it by `&`.
#[derive(Drop)]
pub struct Best<T: Entry> {
    pub(crate) table: Words<T>,
    ghost words_are: { table.shared.table_id.words ≡ 2 },
    ghost slots_are: { table.shared.table_id.slots ≡ 1 },
}

/// A pass of a best, with the entry that its last exchange gave. It may cross threads.
#[derive(Drop)]
pub struct BestPass<T> {
    pub(crate) seat: Seat<Option<T>, View<T>>,
    pub(crate) last: Option<T>,
}
