//! The faults of a text that is read as a schedule.
ghost use Rattle.std.specs.Prelude.{◌≡◌};

use std::alloc::AllocError;
use thiserror::Error;

/// Why a text was not read as a schedule (our choice). Lines are counted from 1; the number of a
/// line past 2^32 - 1 is given as 2^32 - 1.
#[derive(Clone, Copy, Debug, PartialEq, Eq, Error)]
pub enum ScheduleFault {
    /// The first line at fault is outside the grammar.
    #[error("schedule line {0}")]
    BadLine(u32),
    /// The first line at fault is the one with which there are more than 100,000 turns.
    #[error("too long: schedule line {0}")]
    TooLong(u32),
    /// An allocation was refused.
    #[error("no memory")]
    Memory,
}

/// A refused allocation is out of memory, and nothing else is.
impl From<AllocError> for ScheduleFault {
    ghost use Rattle.radio_replay.specs.declared.faults.ScheduleFault.TheVariants.{Memory};

    ghost from_gives = { λ refused fault. fault ≡ Memory };

    fn from(_refused: AllocError) -> Self {
        ScheduleFault::Memory
    }
}
