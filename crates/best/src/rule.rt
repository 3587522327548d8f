//! What the words and the slot keep between any two steps, and what each kind of step tells.
ghost use Rattle.std.specs.Prelude.{◌≡◌};

use crate::Entry;
use atomic_table::{Play, Split, TableRule};
use std::collections::LinkedList;
use std::marker::PhantomData;

/// A turn that a pass has seen: its offer, and whether it was the pass's own. No value of it is
/// made.
pub struct Turn<T> {
    pub own: bool,
    pub offer: Option<T>,
}

/// What a pass knows: whether it holds a ticket and which, whether it is in its turn and with which
/// offer, the turns that it has seen, the newest first, and how many passes it may still make. No
/// value of it is made.
pub struct View<T> {
    pub waits: bool,
    pub ticket: u64,
    pub turns: bool,
    pub offer: Option<T>,
    pub seen: LinkedList<Turn<T>>,
    pub makes: u64,
}

/// The rule: two words count the tickets and the turns that have ended, modulo 2^64, and while no
/// pass is in its turn the slot holds the newest entry of the history of all turns.
pub struct InTurns<T>(PhantomData<T>);

impl<T: Entry> TableRule<Option<T>, View<T>, u32> for InTurns<T> {
    ghost use Rattle.best.specs.Rules.{Kept, maker};

    ghost holds = { λ _ s. Kept T.is_lower s };

    ghost first = { maker };
}

/// A pass draws a ticket.
pub struct DrawsTicket;

impl<T> Play<Option<T>, View<T>> for DrawsTicket {
    ghost use Rattle.best.specs.Rules as rules;

    ghost then = { rules.DrawsTicket };
}

/// A pass looks whether its turn has come. Where it has, it takes the slot.
pub struct LooksForTurn<T>(PhantomData<T>);

impl<T: Entry> Play<Option<T>, View<T>> for LooksForTurn<T> {
    ghost use Rattle.best.specs.Rules as rules;

    ghost then = { rules.LooksForTurn T.is_lower };
}

/// A pass ends its turn, and gives the slot back.
pub struct EndsTurn;

impl<T> Play<Option<T>, View<T>> for EndsTurn {
    ghost use Rattle.best.specs.Rules as rules;

    ghost then = { rules.EndsTurn };
}

/// A new pass, which has seen nothing.
pub struct NewPass;

impl<T> Split<View<T>> for NewPass {
    ghost use Rattle.best.specs.Rules.{newcomer, with_one_less};

    ghost left = { with_one_less };

    ghost right = { λ _. newcomer };
}
