//! Lists of multipliers, each once, in the order of their first standing.
ghost use Rattle.std.specs.Prelude.{◌≡◌, ◌≤◌, [], OnErr, OnOk, length};
ghost use Rattle.migrating.specs.Migration.{has_list, place};
ghost use Rattle.migrating.specs.Making.{add_list};

use indexmap::IndexSet;
use std::alloc::{AllocError, Global};
use std::marker::Model;

/// The least number of terms that several cuts share as a list.
pub const LEAST_SHARED: usize = 4;

/// A number of a constraint, with a multiplier.
pub type Term = (u32, i64);

/// Lists of multipliers. Contracts see the lists in their order.
#[derive(Drop)]
pub struct Lists<'a> {
    held: IndexSet<&'a [Term]>,
}

impl<'a> Model for Lists<'a> {
    ghost use Rattle.std.specs.Prelude.{List, map};
    ghost use Rattle.cert2_text.specs.Wholes.{Terms};

    ghost Value = { List Terms };

    ghost view = { λ l. map (λ s. s.now) l.held.keys };
}

impl<'a> Lists<'a> {
    /// No list.
    pub fn new(alloc: Global) -> Lists<'a>
        ensures { result ≡ [] }
    {
        Lists {
            held: IndexSet::new(alloc),
        }
    }

    /// Whether these multipliers are a list.
    pub fn has(&self, mult: &'a [Term]) -> bool
        ensures { result ≡ has_list self.now mult.now }
    {
        self.held.contains(mult)
    }

    /// The place of these multipliers among the lists, or the number of lists.
    pub fn place(&self, mult: &'a [Term]) -> usize
        ensures { result ≡ place self.now mult.now }
    {
        match self.held.get_index_of(mult) {
            Some(index) => index,
            None => self.held.len(),
        }
    }

    /// Adds these multipliers behind the lists, unless they are among them.
    pub fn add(&mut self, mult: &'a [Term]) -> Result<(), AllocError>
        ensures ok { OnOk result (self.new ≡ add_list self.old mult.now) }
        ensures err { OnErr result (self.new ≡ self.old) }
    {
        self.held.insert(mult)?;
        Ok(())
    }
}
