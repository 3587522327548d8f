//! Which member of a pair is chosen to be zero.
ghost use Rattle.std.specs.Prelude.{◌≡◌};
ghost use Rattle.nogoods.specs.Choices.{other};

/// A member of a pair. A comes before B.
#[derive(Clone, Copy, Debug, Default, PartialEq, Eq)]
pub enum Side {
    #[default]
    A,
    B,
}

/// A pair, counted from 0, and the member of it that is chosen to be zero.
#[derive(Clone, Copy, Debug, Default, PartialEq, Eq)]
pub struct Choice {
    pub pair: u32,
    pub side: Side,
}

impl Choice {
    /// The choice of the other side of the same pair.
    #[inline(always)]
    pub fn other(self) -> Choice
        ensures { result ≡ other self }
    {
        let side = match self.side {
            Side::A => Side::B,
            Side::B => Side::A,
        };
        Choice {
            pair: self.pair,
            side,
        }
    }
}
