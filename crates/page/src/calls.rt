//! The calls on a page.
ghost use Rattle.std.specs.Prelude.{◌≡◌, ◌<◌, ◌≤◌, ◌+◌, ℕ, suc, [], ◌∷◌, ◌++◌, true, false, length, slice_index_or, IfOk, IsTrue, All};
ghost use Rattle.page.specs.Places.{place, word_count};
ghost use Rattle.page.specs.Rules.{newcomer, IsItem, Looked};
ghost use Rattle.page.specs.Passes.{room_of, stride_of, keeps_of, published, seen, look_of, IsWriterOf, IsReaderOf, IsNewReaderOf, ReadOf};

use crate::passes::{Page, ReadPass, Words, WritePass};
use crate::places::{count_words, head_of};
use crate::rule::{Keeps, NewReader, PageKey, View};
use crate::steps::{look, read_word, store_head, store_word};
use atomic_table::{Seat, Table};
use std::alloc::{AllocError, Global};

/// A table of zeros, and the seat that writes.
fn open_table<K: Keeps>(
    alloc: Global,
    key: &PageKey<K>,
) -> Result<(Words<K>, Seat<u8, View<K>>), AllocError>
    ensures key { IfOk result (λ made. made.0.shared.key ≡ key.now) }
    ensures words { IfOk result (λ made. made.0.shared.table_id.words ≡ word_count key.now.stride key.now.items) }
    ensures seat { IfOk result (λ made. (made.1.table_id ≡ made.0.shared.table_id) × (made.1.me.0 ≡ newcomer key.now true)) }
{
    let zeros = vec![in alloc; 0u64; count_words(key.stride, key.items)]?;
    Table::of_words(alloc, &zeros, key)
}

/// A pass for a reader, which has seen nothing.
fn new_reader<K: Keeps>(page: &Page<K>, pass: &mut WritePass<K>) -> ReadPass<K>
    requires ours { IsWriterOf page.now pass.old }
    ensures new { IsNewReaderOf page.now result }
    ensures same { IsWriterOf page.now pass.new × (published pass.new ≡ published pass.old) }
{
    ReadPass {
        seat: page.table.shared.split_seat::<NewReader>(&mut pass.seat),
    }
}

fn new_readers<K: Keeps>(
    alloc: Global,
    page: &Page<K>,
    pass: &mut WritePass<K>,
    count: u32,
) -> Result<Vec<ReadPass<K>>, AllocError>
    requires ours { IsWriterOf page.now pass.old }
    ensures count { IfOk result (λ made. length made.items ≡ count) }
    ensures new { IfOk result (λ made. All (IsNewReaderOf page.now) made.items) }
    ensures same { IsWriterOf page.now pass.new × (published pass.new ≡ published pass.old) }
{
    let mut made = Vec::with_capacity(alloc, count as usize)?;
    for _ in 0..count {
        made.push(new_reader(page, pass))?;
    }
    Ok(made)
}

/// Stores the words of the next item.
fn store_words<K: Keeps>(page: &Page<K>, seat: &mut Seat<u8, View<K>>, head: usize, words: &[u64])
    requires ours { seat.old.table_id ≡ page.now.table.shared.table_id }
    requires writes { seat.old.me.0.writes ≡ true }
    requires whole { seat.old.me.0.draft ≡ [] }
    requires head { head ≡ place page.now.stride (length seat.old.me.0.seen) 0 }
    requires within { head + page.now.stride < word_count page.now.stride page.now.items }
    requires room { length seat.old.me.0.seen < page.now.items }
    requires length { length words.now ≡ page.now.stride }
    ensures ours { seat.new.table_id ≡ seat.old.table_id }
    ensures added { seat.new.me.0 ≡ record seat.old.me.0 { draft = words.now } }
{
    let mut at = head;
    for word in words {
        at += 1;
        store_word(page, seat, at, *word);
    }
}

/// Reads the words of an item that was seen.
fn read_words<K: Keeps>(
    page: &Page<K>,
    seat: &mut Seat<u8, View<K>>,
    head: usize,
    i: u32,
    into: &mut [u64],
)
    requires ours { seat.old.table_id ≡ page.now.table.shared.table_id }
    requires reads { seat.old.me.0.writes ≡ false }
    requires head { head ≡ place page.now.stride i 0 }
    requires room { i < page.now.items }
    requires within { head + page.now.stride < word_count page.now.stride page.now.items }
    requires seen { i < length seat.old.me.0.seen }
    requires item { length (slice_index_or seat.old.me.0.seen i []) ≡ page.now.stride }
    requires length { length into.old ≡ page.now.stride }
    requires same { seat.old.me.0.key ≡ page.now.table.shared.key }
    ensures same { (seat.new.me ≡ seat.old.me) × (seat.new.table_id ≡ seat.old.table_id) }
    ensures words { into.new ≡ slice_index_or seat.old.me.0.seen i [] }
{
    for k in 0..into.len() {
        into[k] = read_word(page, seat, head + k + 1, i, k);
    }
}

impl<K: Keeps + Drop> Page<K> {
    /// An empty page with room for this many items, the pass that publishes, and so many passes that
    /// read.
    pub fn create(
        alloc: Global,
        keeps: K,
        items: u32,
        readers: u32,
    ) -> Result<(Page<K>, WritePass<K>, Vec<ReadPass<K>>), AllocError>
        ensures page { IfOk result (λ made. (room_of made.0 ≡ items) × (keeps_of made.0 ≡ keeps) × (stride_of made.0 ≡ K.width keeps)) }
        ensures writer { IfOk result (λ made. IsWriterOf made.0 made.1 × (published made.1 ≡ [])) }
        ensures readers { IfOk result (λ made. (length made.2.items ≡ readers) × All (IsNewReaderOf made.0) made.2.items) }
    {
        let stride = keeps.stride();
        let key = PageKey {
            keeps,
            stride,
            items,
        };
        let (table, seat) = open_table(alloc, &key)?;
        let page = Page {
            table,
            stride,
            items,
        };
        let mut pass = WritePass { seat, count: 0 };
        let reads = new_readers(alloc, &page, &mut pass, readers)?;
        Ok((page, pass, reads))
    }
}

impl<K: Keeps> Page<K> {
    /// For how many items there is room.
    pub fn room(&self) -> u32
        ensures { result ≡ room_of self.now }
    {
        self.items
    }

    /// Publishes an item behind those that were published. It takes neither memory nor waiting.
    pub fn publish(&self, pass: &mut WritePass<K>, words: &[u64])
        requires ours { IsWriterOf self.now pass.old }
        requires room { length (published pass.old) < room_of self.now }
        requires length { length words.now ≡ stride_of self.now }
        requires fact { K.fact (keeps_of self.now) words.now }
        ensures ours { IsWriterOf self.now pass.new }
        ensures added { published pass.new ≡ published pass.old ++ words.now ∷ [] }
    {
        let head = head_of(self.stride, self.items, pass.count);
        store_words(self, &mut pass.seat, head, words);
        store_head(self, &mut pass.seat, head);
        pass.count += 1;
    }

    /// Reads an item that was seen, or the one behind these. It makes one look at the item's head, and
    /// answers false exactly where the page had no such item then. It takes neither memory nor waiting.
    pub fn read(&self, pass: &mut ReadPass<K>, i: u32, into: &mut [u64]) -> bool
        requires ours { IsReaderOf self.now pass.old }
        requires room { i < room_of self.now }
        requires next { i ≤ length (seen pass.old) }
        requires length { length into.old ≡ stride_of self.now }
        ensures ours { IsReaderOf self.now pass.new }
        ensures read { ReadOf i pass.old into.old result pass.new into.new }
        ensures fact { IsTrue result → K.fact (keeps_of self.now) into.new }
        ensures length { length into.new ≡ stride_of self.now }
    {
        let head = head_of(self.stride, self.items, i);
        if look(self, &mut pass.seat, head, i) != 1 {
            return false;
        }
        read_words(self, &mut pass.seat, head, i, into);
        true
    }

    /// Takes the page and its passes back, and answers how many items were published.
    pub fn close(self, write: WritePass<K>, reads: Vec<ReadPass<K>>) -> u32
        requires writer { IsWriterOf self write }
        requires readers { All (IsReaderOf self) reads.items }
        ensures { result ≡ length (published write) }
    {
        write.count
    }
}
