//! The faults of a text that is read as a journal.
ghost use Rattle.std.specs.Prelude.{◌≡◌};

use std::alloc::AllocError;
use thiserror::Error;

/// Why a text was not read as a journal (our choice).
#[derive(Clone, Copy, Debug, PartialEq, Eq, Error)]
pub enum JournalFault {
    /// This line, counted from 1, is the first that is not the line of an entry, or it lacks its
    /// newline.
    #[error("journal line {0}")]
    BadLine(u32),
    /// An allocation was refused.
    #[error("no memory")]
    Memory,
}

/// A refused allocation is out of memory, and nothing else is.
impl From<AllocError> for JournalFault {
    ghost use Rattle.journal.specs.declared.faults.JournalFault.TheVariants.{Memory};

    ghost from_gives = { λ refused fault. fault ≡ Memory };

    fn from(_refused: AllocError) -> Self {
        JournalFault::Memory
    }
}
