//! What an addition answers.

use asp_defs::Unknown;
use std::alloc::AllocError;
use thiserror::Error;

/// An entry that holds the seed stands in the history, at a position from 0.
#[derive(Debug, Clone, Copy, PartialEq, Eq)]
pub enum Added {
    /// It stood there already, and nothing was added.
    Known(u32),
    /// The entry was appended.
    New(u32),
}

/// Why an entry was not added.
#[derive(Debug, Clone, Copy, Error)]
pub enum AddFault {
    /// The cells don't suffice for it.
    #[error("the cells are spent")]
    Spent(Unknown),
    /// Memory ran out.
    #[error("out of memory")]
    NoMemory,
}

impl From<AllocError> for AddFault {
    ghost use Rattle.std.specs.Prelude.{◌≡◌};
    ghost use Rattle.asp_store.specs.declared.added.AddFault.TheVariants.{NoMemory};

    ghost from_gives = { λ _ fault. fault ≡ NoMemory };

    fn from(_: AllocError) -> AddFault {
        AddFault::NoMemory
    }
}
