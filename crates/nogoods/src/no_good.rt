//! Sets of choices without both sides of a pair.
ghost use Rattle.std.specs.Prelude.{◌≡◌, ◌↔◌, IfOk, IfSome, IsSome, IsTrue};
ghost use Rattle.nogoods.specs.Choices.{pair_of, pairs_ascend};

use crate::Choice;
use lp_base::{Numbered, is_ascending};
use smallvec::SmallVec;
use std::alloc::{AllocError, Global};
use std::marker::Model;

/// A set of choices without both sides of a pair. Contracts see the list of its choices, whose
/// pairs ascend strictly.
pub struct NoGood {
    held: SmallVec<Choice, 4>,
}

/// By a call, which keeps the models of the functions small that own one.
impl Drop for NoGood {
    fn drop(self) {
        let NoGood { held: _ } = self;
    }
}

impl Model for NoGood {
    ghost use Rattle.std.specs.Prelude.{◌≡◌, List, true};
    ghost use Rattle.nogoods.specs.declared.choice.Choice.{Choice};
    ghost use Rattle.nogoods.specs.Choices.{pairs_ascend};

    ghost Value = { List Choice };

    ghost view = { λ n. n.held.items };

    ghost invariant = { λ n. pairs_ascend n.held.items ≡ true };
}

impl Numbered for Choice {
    ghost number = { pair_of };

    fn number(&self) -> u32 {
        self.pair
    }
}

impl NoGood {
    /// The no-good of these choices. None exactly where their pairs do not ascend strictly.
    pub fn from_choices(alloc: Global, list: &[Choice]) -> Result<Option<NoGood>, AllocError>
        ensures made { IfOk result (λ found. IfSome found (λ no_good. no_good ≡ list.now)) }
        ensures exact { IfOk result (λ found. IsSome found ↔ IsTrue (pairs_ascend list.now)) }
    {
        if !is_ascending(list) {
            return Ok(None);
        }
        Ok(Some(NoGood {
            held: SmallVec::from_slice(alloc, list)?,
        }))
    }

    /// An equal no-good.
    pub fn copy(&self, alloc: Global) -> Result<NoGood, AllocError>
        ensures { IfOk result (λ made. made ≡ self.now) }
    {
        Ok(NoGood {
            held: SmallVec::from_slice(alloc, self.held.as_slice())?,
        })
    }

    /// The choices, their pairs ascending strictly.
    pub fn choices(&self) -> &[Choice]
        ensures list { result.now ≡ self.now }
        ensures ascending { IsTrue (pairs_ascend self.now) }
    {
        self.held.as_slice()
    }
}
