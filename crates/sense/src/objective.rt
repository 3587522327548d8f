//! The sense of an objective.
ghost use Rattle.std.specs.Prelude.{◌≡◌, ◌<◌, ◌^◌, unsigned_abs};
ghost use Rattle.sense.specs.Senses.{signed};

/// Whether an objective is to be least or greatest.
#[derive(Clone, Copy, Debug, PartialEq, Eq)]
pub enum Sense {
    /// Minimise.
    Min,
    /// Maximise.
    Max,
}

impl Sense {
    /// The objective that stands for a number to be made least: the number itself for `Min`, its
    /// negative for `Max`.
    pub fn signed(self, least: i128) -> i128
        requires { unsigned_abs least < 2 ^ 127 }
        ensures value { result ≡ signed self least }
        ensures small { unsigned_abs result < 2 ^ 127 }
    {
        match self {
            Sense::Min => least,
            Sense::Max => -least,
        }
    }
}
