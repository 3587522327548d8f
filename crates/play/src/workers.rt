//! How many workers a run has.
ghost use Rattle.std.specs.Prelude.{◌≡◌, ◌≤◌, MatchOption};

use std::marker::Model;

/// A number of workers, at least 1. Contracts see the number.
#[derive(Clone, Copy, Debug, Drop, PartialEq, Eq)]
pub struct Workers {
    number: u32,
}

impl Model for Workers {
    ghost use Rattle.std.specs.Prelude.{◌≤◌, ℕ};

    ghost Value = { ℕ };

    ghost view = { λ w. w.number };

    ghost invariant = { λ w. 1 ≤ w.number };

    ghost inverse = { λ n. record { number = n } };
}

impl Workers {
    /// One worker.
    pub fn one() -> Workers
        ensures { result ≡ 1 }
    {
        Workers { number: 1 }
    }

    /// So many workers; None where there are to be none.
    pub fn from_number(number: u32) -> Option<Workers>
        ensures { MatchOption result (number ≡ 0) (λ w. w ≡ number) }
    {
        if number == 0 {
            None
        } else {
            Some(Workers { number })
        }
    }

    /// Their number.
    pub fn number(self) -> u32
        ensures value { result ≡ self }
        ensures least { 1 ≤ result }
    {
        self.number
    }
}
