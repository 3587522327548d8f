//! What every crate of the solver shares: a list that contracts see as its elements, the limits,
//! products of 64-bit numbers, ascending lists, and, in `specs/` and `proofs/`, sums over lists of
//! whole numbers with their laws.
#![tactic(auto)]

mod ascending;
mod limits;
mod products;

ghost use Rattle.std.specs.Prelude.{◌≡◌, ◌==◌, ◌<◌, ◌∷◌, ◌++◌, [], IfOk, OnOk, OnErr, length};

pub use ascending::{Numbered, is_ascending};
pub use limits::{
    LARGEST_NARROW, LARGEST_OF_CASE, LARGEST_WORD, MOST_COLUMNS, MOST_CONSTRAINTS, MOST_ENTRIES,
    MOST_PAIRS, MOST_ROWS, NO_BOUND_FROM,
};
pub use products::{add_product, product};
use std::alloc::{AllocError, Global};
use std::marker::Model;

/// A list. Contracts see its elements alone, and not how they are kept.
#[derive(Drop)]
pub struct Sequence<T> {
    held: Vec<T>,
}

impl<T> Model for Sequence<T> {
    ghost use Rattle.std.specs.Prelude.{List, ◌<◌, ◌^◌, length};
    ghost use Rattle.std.specs.Coded.{coded_list};

    ghost Value = { List T };

    ghost coded = { coded_list T.code };

    ghost view = { λ s. s.held.items };
}

impl<T> Sequence<T> {
    /// The empty list. It takes no memory.
    pub fn new(alloc: Global) -> Sequence<T>
        ensures { result ≡ [] }
    {
        Sequence {
            held: Vec::new(alloc),
        }
    }

    /// The list of a vector's elements.
    pub fn of_vec(held: Vec<T>) -> Sequence<T>
        ensures { result ≡ held.items }
    {
        Sequence { held }
    }

    /// The elements in their order.
    pub fn as_slice(&self) -> &[T]
        ensures { result.now ≡ self.now }
    {
        self.held.as_slice()
    }

    /// The number of elements.
    pub fn len(&self) -> usize
        ensures { result ≡ length self.now }
    {
        self.held.len()
    }

    /// Whether there is no element.
    pub fn is_empty(&self) -> bool
        ensures { result ≡ (length self.now == 0) }
    {
        self.held.is_empty()
    }
}

impl<T: Drop> Sequence<T> {
    /// Adds an element behind all others. Without memory nothing changes.
    pub fn push(&mut self, value: T) -> Result<(), AllocError>
        ensures ok { OnOk result (self.new ≡ self.old ++ value ∷ []) }
        ensures err { OnErr result (self.new ≡ self.old) }
    {
        self.held.push(value)?;
        Ok(())
    }
}

impl<T: Copy> Sequence<T> {
    /// An equal list.
    pub fn copy(&self, alloc: Global) -> Result<Sequence<T>, AllocError>
        ensures { IfOk result (λ made. made ≡ self.now) }
    {
        Ok(Sequence {
            held: Vec::from_slice(alloc, self.held.as_slice())?,
        })
    }
}
