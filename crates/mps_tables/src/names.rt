//! Tables of names, each once, in the order of their first standing.
ghost use Rattle.std.specs.Prelude.{◌≡◌, ◌<◌, ◌≤◌, false, [], ◌∷◌, ◌++◌, OnOk, OnErr, length, not, option_map, slice_get};
ghost use Rattle.mps_lex.specs.Shown.{shown};
ghost use Rattle.decks.specs.Names.{place, has, add_name, named, put};
ghost use Rattle.mps_tables.specs.Seen.{shown_entry};

use indexmap::{IndexMap, IndexSet};
use std::alloc::{AllocError, Global};
use std::marker::Model;

/// Names of a text. Contracts see the list of them.
pub struct Names<'a> {
    held: IndexSet<&'a [u8]>,
}

/// By a call, which keeps the models of the functions small that own a table.
impl<'a> Drop for Names<'a> {
    fn drop(self) {
        let Names { held: _ } = self;
    }
}

impl<'a> Model for Names<'a> {
    ghost use Rattle.std.specs.Prelude.{ℕ, List, map};
    ghost use Rattle.mps_lex.specs.Shown.{shown};

    ghost Value = { List (List ℕ) };

    ghost view = { λ n. map shown n.held.keys };
}

impl<'a> Names<'a> {
    pub fn new(alloc: Global) -> Names<'a>
        ensures { result ≡ [] }
    {
        Names {
            held: IndexSet::new(alloc),
        }
    }

    pub fn len(&self) -> usize
        ensures { result ≡ length self.now }
    {
        self.held.len()
    }

    /// The place of a name, or the number of names.
    pub fn place(&self, name: &'a [u8]) -> usize
        ensures value { result ≡ place self.now name.now }
        ensures within { result ≤ length self.now }
    {
        match self.held.get_index_of(name) {
            Some(index) => index,
            None => self.held.len(),
        }
    }

    /// Whether the place of a name is behind all others, so that it is not there.
    pub fn is_new(&self, index: usize, name: &'a [u8]) -> bool
        requires { index ≡ place self.now name.now }
        ensures { result ≡ not (has self.now name.now) }
    {
        index == self.len()
    }

    pub fn has(&self, name: &'a [u8]) -> bool
        ensures { result ≡ has self.now name.now }
    {
        self.held.contains(name)
    }

    /// The name at a place.
    pub fn at(&self, index: usize) -> Option<&'a [u8]>
        ensures { option_map shown result ≡ slice_get self.now index }
    {
        self.held.get_index(index).copied()
    }

    /// Adds a name that is not there.
    pub fn push(&mut self, name: &'a [u8]) -> Result<(), AllocError>
        requires { has self.old name.now ≡ false }
        ensures ok { OnOk result (self.new ≡ self.old ++ name.now ∷ []) }
        ensures err { OnErr result (self.new ≡ self.old) }
    {
        self.add(name)
    }

    /// Adds a name, if it is not there.
    pub fn add(&mut self, name: &'a [u8]) -> Result<(), AllocError>
        ensures ok { OnOk result (self.new ≡ add_name self.old name.now) }
        ensures err { OnErr result (self.new ≡ self.old) }
    {
        self.held.insert(name)?;
        Ok(())
    }

    /// Takes all names out.
    pub fn clear(&mut self)
        ensures { self.new ≡ [] }
    {
        self.held.clear();
    }
}

/// Names of a text with what is known of each. Contracts see the list of both.
pub struct NameMap<'a, T> {
    held: IndexMap<&'a [u8], T>,
}

/// By a call, which keeps the models of the functions small that own a table.
impl<'a, T: Drop> Drop for NameMap<'a, T> {
    fn drop(self) {
        let NameMap { held: _ } = self;
    }
}

impl<'a, T> Model for NameMap<'a, T> {
    ghost use Rattle.std.specs.Prelude.{ℕ, List, map};
    ghost use Rattle.std.specs.Coded.{coded_list, coded×, coded_ℕ};
    ghost use Rattle.mps_tables.specs.Seen.{shown_entry};

    ghost Value = { List (List ℕ × T) };

    ghost coded = { coded_list (coded× (coded_list coded_ℕ) T.code) };

    ghost view = { λ n. map shown_entry n.held.entries };
}

impl<'a, T: Copy> NameMap<'a, T> {
    pub fn new(alloc: Global) -> NameMap<'a, T>
        ensures { result ≡ [] }
    {
        NameMap {
            held: IndexMap::new(alloc),
        }
    }

    pub fn len(&self) -> usize
        ensures { result ≡ length self.now }
    {
        self.held.len()
    }

    /// What is known of a name.
    pub fn get(&self, name: &'a [u8]) -> Option<T>
        ensures { result ≡ named self.now name.now }
    {
        self.held.get(name).copied()
    }

    /// The name at a place, with what is known of it.
    pub fn at(&self, index: usize) -> Option<(&'a [u8], T)>
        ensures { option_map shown_entry result ≡ slice_get self.now index }
    {
        match self.held.get_index(index) {
            Some((name, value)) => Some((*name, *value)),
            None => None,
        }
    }

    /// Notes something of a name.
    pub fn put(&mut self, name: &'a [u8], value: T) -> Result<(), AllocError>
        ensures ok { OnOk result (self.new ≡ put self.old name.now value) }
        ensures err { OnErr result (self.new ≡ self.old) }
    {
        self.held.insert(name, value)?;
        Ok(())
    }
}
