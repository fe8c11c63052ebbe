//! The errors of reading and writing.
ghost use Rattle.std.specs.Prelude.{◌≡◌};
ghost use Rattle.asp_io.specs.declared.fault.ReadFault.TheVariants.{Failed as SourceFailed, NoMemory};

use std::alloc::AllocError;
use thiserror::Error;

/// A source or a sink failed, and has counted the fault.
#[derive(Debug, Drop, Error)]
#[error("a read or a write failed")]
pub struct Failed;

/// Why `read_all` gave no bytes.
#[derive(Debug, Drop, Error)]
pub enum ReadFault {
    /// The source failed.
    #[error("the source failed")]
    Failed,
    /// The allocator refused the memory for the bytes.
    #[error("out of memory")]
    NoMemory,
}

impl From<Failed> for ReadFault {
    ghost from_gives = { λ _ e. e ≡ SourceFailed };

    fn from(_: Failed) -> ReadFault {
        ReadFault::Failed
    }
}

impl From<AllocError> for ReadFault {
    ghost from_gives = { λ _ e. e ≡ NoMemory };

    fn from(_: AllocError) -> ReadFault {
        ReadFault::NoMemory
    }
}
