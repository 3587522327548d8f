//! Why a line is not taken.
ghost use Rattle.std.specs.Prelude.{◌≡◌};
ghost use Rattle.mps_tables.specs.declared.fault.Fault.TheVariants.{Memory, Of};

use decks::DeckWhy;
use std::alloc::{AllocError, AllocFailed};

/// Why a line is not taken: memory is short, or the line has a fault.
#[derive(Drop)]
pub enum Fault {
    Memory,
    Of(DeckWhy),
}

impl From<AllocError> for Fault {
    ghost from_gives = { λ _ e. e ≡ Memory };

    fn from(_e: AllocError) -> Fault {
        Fault::Memory
    }
}

impl<T: Drop> From<AllocFailed<T>> for Fault {
    ghost from_gives = { λ _ e. e ≡ Memory };

    fn from(_e: AllocFailed<T>) -> Fault {
        Fault::Memory
    }
}

impl From<DeckWhy> for Fault {
    ghost from_gives = { λ why f. f ≡ Of why };

    fn from(why: DeckWhy) -> Fault {
        Fault::Of(why)
    }
}
