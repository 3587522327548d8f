//! Groups of quantities.
ghost use Rattle.std.specs.Prelude.{◌≡◌, ◌<◌, ◌≤◌, ◌+◌, ◌∷◌, [], ◌++◌, not, true, None, IfOk, IfSome, IfNone, OnOk, length, map, nat_lt};
ghost use Rattle.std.specs.List.{list_any};
ghost use Rattle.mps_lex.specs.Kinds.{fields};
ghost use Rattle.decks.specs.Decks.{new_pairs};
ghost use Rattle.decks.specs.Names.{add_name, has};
ghost use Rattle.decks.specs.Spelling.{item_of, items_in};
ghost use Rattle.decks.specs.Faults.{◌or◌, are_items, is_kind, is_split, fault_if, group_front_fault, items_fault, full_group_fault};
ghost use Rattle.decks.specs.declared.fault.DeckWhy.TheVariants.{GroupSplit};
ghost use Rattle.mps_tables.specs.Known.{bounds_with};
ghost use Rattle.mps_tables.specs.Answers.{Checks, Judges};
ghost use Rattle.mps_pairs.specs.Groups.{known_groups, other_groups, items_of_last, items_here, with_items, with_group, known_group_fault};

use crate::pairs::{is_kind, quantity};
use decks::{DeckWhy, GroupLine, Quantity};
use lp_base::{MOST_COLUMNS, MOST_PAIRS, Sequence};
use mps_lex::{count_fields, first_field};
use mps_tables::{BoundTable, Fault, Names, RowTable};
use std::alloc::Global;
use std::marker::Model;
use std::mem::replace;

/// The names of the groups, the groups, and how many pairs they make.
pub struct GroupTable<'a> {
    names: Names<'a>,
    groups: Vec<GroupLine>,
    pairs: usize,
}

/// By a call, which keeps the models of the functions small that own one.
impl<'a> Drop for GroupTable<'a> {
    fn drop(self) {
        let GroupTable {
            names: _,
            groups: _,
            pairs: _,
        } = self;
    }
}

impl<'a> Model for GroupTable<'a> {
    ghost use Rattle.mps_pairs.specs.Groups.{KnownGroups};

    ghost Value = { KnownGroups };

    ghost view = { λ t. record { names = t.names; groups = t.groups.items; pairs = t.pairs } };
}

// One or more times a kind and a name.
fn are_items(words: &[u8]) -> bool
    ensures { result ≡ are_items (fields words.now) }
{
    let count = count_fields(words);
    count > 0 && count % 2 == 0
}

// The first kind and name of words, and what stands behind them.
fn first_item(words: &[u8]) -> Option<(&[u8], &[u8], &[u8])>
    ensures some { IfSome result (λ r. items_in (fields words.now) ≡ (r.0.now, r.1.now) ∷ items_in (fields r.2.now)) }
    ensures shorter { IfSome result (λ r. length r.2.now < length words.now) }
    ensures none { IfNone result (items_in (fields words.now) ≡ []) }
{
    let (kind, after) = first_field(words)?;
    let (name, more) = first_field(after)?;
    Some((kind, name, more))
}

// Whether one of the words in the places of kinds is none.
fn has_other_kind(words: &[u8]) -> bool
    ensures { result ≡ list_any (λ w. not (is_kind w.0)) (items_in (fields words.now)) }
{
    let mut rest = words;
    while let Some((kind, _, more)) = first_item(rest) {
        if !is_kind(kind) {
            return true;
        }
        rest = more;
    }
    false
}

// Checks the items that words name, and counts them. It takes no memory.
#[tactic(auto, using(mps_tables::proofs::Judging::first_is))]
fn check_items<'a>(
    rows: &RowTable<'a>,
    columns: &Names<'a>,
    bounds: &BoundTable<'a>,
    words: &'a [u8],
) -> Result<usize, DeckWhy>
    requires { length columns.now ≤ MOST_COLUMNS }
    ensures fault { Checks result (items_fault rows.now columns.now (bounds_with bounds.now.columns) (items_in (fields words.now))) }
    ensures count { IfOk result (λ n. n ≡ length (items_in (fields words.now))) }
{
    let mut count = 0;
    let mut rest = words;
    while let Some((kind, name, more)) = first_item(rest) {
        quantity(rows, columns, bounds, kind, name)?;
        count += 1;
        rest = more;
    }
    Ok(count)
}

// Adds the items that words name, which have no fault.
fn add_items<'a>(
    rows: &RowTable<'a>,
    columns: &Names<'a>,
    bounds: &BoundTable<'a>,
    words: &'a [u8],
    items: &mut Sequence<Quantity>,
) -> Result<(), Fault>
    requires few { length columns.now ≤ MOST_COLUMNS }
    requires right { items_fault rows.now columns.now (bounds_with bounds.now.columns) (items_in (fields words.now)) ≡ None }
    ensures fault { Judges result None }
    ensures ok { OnOk result (items.new ≡ items.old ++ map (item_of rows.now columns.now) (items_in (fields words.now))) }
{
    let mut rest = words;
    while let Some((kind, name, more)) = first_item(rest) {
        match quantity(rows, columns, bounds, kind, name) {
            Ok(found) => items.push(found)?,
            Err(why) => return Err(Fault::Of(why)),
        }
        rest = more;
    }
    Ok(())
}

// How many pairs groups make that made so many, with so many further items of a group that has n.
// There may be a limited number of them with those of PAIRS.
fn count_pairs(pairs: usize, made: usize, n: usize, more: usize) -> Result<usize, DeckWhy>
    ensures fault { Checks result (full_group_fault (pairs + made) n more) }
    ensures value { IfOk result (λ all. all ≡ made + new_pairs n more) }
{
    if pairs > MOST_PAIRS || made > MOST_PAIRS {
        return Err(DeckWhy::TooMany);
    }
    let mut total = made;
    let mut standing = n;
    let mut left = more;
    while left > 0 {
        if standing > MOST_PAIRS || total > MOST_PAIRS {
            return Err(DeckWhy::TooMany);
        }
        total += standing;
        standing += 1;
        left -= 1;
    }
    if pairs + total > MOST_PAIRS {
        return Err(DeckWhy::TooMany);
    }
    Ok(total)
}

// Whether something stands behind this place among so many.
fn has_behind(place: usize, count: usize) -> bool
    requires { place ≤ count }
    ensures { result ≡ nat_lt (place + 1) count }
{
    count - place > 1
}

impl<'a> GroupTable<'a> {
    pub fn new(alloc: Global) -> GroupTable<'a>
        ensures { result ≡ known_groups [] [] [] }
    {
        GroupTable {
            names: Names::new(alloc),
            groups: Vec::new(alloc),
            pairs: 0,
        }
    }

    /// Takes the groups out.
    pub fn take_groups(&mut self, alloc: Global) -> Sequence<GroupLine>
        ensures groups { result ≡ self.old.groups }
        ensures rest { self.new ≡ record self.old { groups = [] } }
    {
        Sequence::of_vec(replace(&mut self.groups, Vec::new(alloc)))
    }

    fn check_whole(&self, name: &'a [u8]) -> Result<(), DeckWhy>
        ensures { Checks result (fault_if (is_split self.now.names name.now) GroupSplit) }
    {
        if has_behind(self.names.place(name), self.names.len()) {
            return Err(DeckWhy::GroupSplit);
        }
        Ok(())
    }

    // Checks what stands on a line of GROUPS before its items are looked up.
    fn check_front(&self, name: &'a [u8], words: &[u8]) -> Result<(), DeckWhy>
        ensures { Checks result (group_front_fault self.now.names name.now (fields words.now)) }
    {
        if !are_items(words) {
            return Err(DeckWhy::FieldCount);
        }
        if has_other_kind(words) {
            return Err(DeckWhy::PairKind);
        }
        self.check_whole(name)
    }

    // Takes out the last group, and gives its items.
    fn take_last(&mut self, alloc: Global) -> Sequence<Quantity>
        ensures items { result ≡ items_of_last self.old.groups }
        ensures rest { self.new ≡ record self.old { groups = other_groups true self.old.groups } }
    {
        match self.groups.pop() {
            Some(group) => group.items,
            None => Sequence::new(alloc),
        }
    }

    // Takes out the group of a name that is new or the last one, and gives its items.
    fn take_items(&mut self, alloc: Global, name: &'a [u8]) -> Sequence<Quantity>
        ensures items { result ≡ items_here (has self.old.names name.now) self.old.groups }
        ensures rest { self.new ≡ record self.old { groups = other_groups (has self.old.names name.now) self.old.groups } }
    {
        if self.names.has(name) {
            return self.take_last(alloc);
        }
        Sequence::new(alloc)
    }

    // Puts a group behind the others.
    fn put(&mut self, name: &'a [u8], items: Sequence<Quantity>, pairs: usize) -> Result<(), Fault>
        ensures fault { Judges result None }
        ensures ok { OnOk result (self.new ≡ record { names = add_name self.old.names name.now; groups = self.old.groups ++ record { items = items } ∷ []; pairs = pairs }) }
    {
        self.names.add(name)?;
        self.groups.push(GroupLine { items })?;
        self.pairs = pairs;
        Ok(())
    }

    // Checks the items of a line, and counts the pairs that groups make with them behind the n items
    // that its group has.
    #[tactic(auto, using(mps_tables::proofs::Judging::first_is, mps_tables::proofs::Judging::then_is))]
    fn check(
        &self,
        rows: &RowTable<'a>,
        columns: &Names<'a>,
        bounds: &BoundTable<'a>,
        pairs: usize,
        n: usize,
        words: &'a [u8],
    ) -> Result<usize, DeckWhy>
        requires { length columns.now ≤ MOST_COLUMNS }
        ensures fault { Checks result (items_fault rows.now columns.now (bounds_with bounds.now.columns) (items_in (fields words.now)) or full_group_fault (pairs + self.now.pairs) n (length (items_in (fields words.now)))) }
        ensures right { IfOk result (λ all. items_fault rows.now columns.now (bounds_with bounds.now.columns) (items_in (fields words.now)) ≡ None) }
        ensures count { IfOk result (λ all. all ≡ self.now.pairs + new_pairs n (length (items_in (fields words.now)))) }
    {
        let more = check_items(rows, columns, bounds, words)?;
        count_pairs(pairs, self.pairs, n, more)
    }

    // Adds the items of a line to its group, which have no fault; then groups make so many pairs.
    fn add(
        &mut self,
        rows: &RowTable<'a>,
        columns: &Names<'a>,
        bounds: &BoundTable<'a>,
        name: &'a [u8],
        words: &'a [u8],
        mut items: Sequence<Quantity>,
        pairs: usize,
    ) -> Result<(), Fault>
        requires few { length columns.now ≤ MOST_COLUMNS }
        requires right { items_fault rows.now columns.now (bounds_with bounds.now.columns) (items_in (fields words.now)) ≡ None }
        ensures fault { Judges result None }
        ensures ok { OnOk result (self.new ≡ record { names = add_name self.old.names name.now; groups = self.old.groups ++ record { items = items ++ map (item_of rows.now columns.now) (items_in (fields words.now)) } ∷ []; pairs = pairs }) }
    {
        add_items(rows, columns, bounds, words, &mut items)?;
        self.put(name, items, pairs)
    }

    // Adds the items of a line to its group.
    #[tactic(auto, using(mps_tables::proofs::Judging::first_tells, mps_tables::proofs::Judging::then_judges))]
    fn parse_group(
        &mut self,
        alloc: Global,
        rows: &RowTable<'a>,
        columns: &Names<'a>,
        bounds: &BoundTable<'a>,
        pairs: usize,
        name: &'a [u8],
        words: &'a [u8],
    ) -> Result<(), Fault>
        requires { length columns.now ≤ MOST_COLUMNS }
        ensures fault { Judges result (items_fault rows.now columns.now (bounds_with bounds.now.columns) (items_in (fields words.now)) or full_group_fault (pairs + self.old.pairs) (length (items_here (has self.old.names name.now) self.old.groups)) (length (items_in (fields words.now)))) }
        ensures ok { OnOk result (self.new ≡ with_items self.old name.now (map (item_of rows.now columns.now) (items_in (fields words.now)))) }
    {
        let items = self.take_items(alloc, name);
        let all = self.check(rows, columns, bounds, pairs, items.len(), words)?;
        self.add(rows, columns, bounds, name, words, items, all)
    }

    /// Parses a line of GROUPS, below these rows, columns and bounds, and so many pairs of PAIRS.
    #[tactic(auto, using(mps_tables::proofs::Judging::first_tells, mps_tables::proofs::Judging::then_judges))]
    pub fn parse(
        &mut self,
        alloc: Global,
        rows: &RowTable<'a>,
        columns: &Names<'a>,
        bounds: &BoundTable<'a>,
        pairs: usize,
        text: &'a [u8],
    ) -> Result<(), Fault>
        requires { length columns.now ≤ MOST_COLUMNS }
        ensures fault { Judges result (known_group_fault rows.now columns.now (bounds_with bounds.now.columns) self.old pairs (fields text.now)) }
        ensures ok { OnOk result (self.new ≡ with_group rows.now columns.now self.old (fields text.now)) }
    {
        match first_field(text) {
            None => Err(Fault::Of(DeckWhy::FieldCount)),
            Some((name, words)) => {
                self.check_front(name, words)?;
                self.parse_group(alloc, rows, columns, bounds, pairs, name, words)
            }
        }
    }
}
