//! The trait of all that the program writes: octets, in order.
ghost use Rattle.std.specs.Prelude.{◌≡◌, ℕ, ◌≤◌, List, Option, OnOk, OnErr, IsErrOf};
ghost use Rattle.outside.specs.Count.{HasRisen};
ghost use Rattle.outside.specs.Growth.{HasGrownBy, HasGrownByPrefix};

use std::alloc::AllocError;
use thiserror::Error;

/// Why octets were not written.
#[derive(Clone, Copy, Debug, PartialEq, Eq, Error)]
pub enum SinkFault {
    /// The write failed, and the count of faults rose.
    #[error("the octets could not be written")]
    Failed,
    /// An allocation for the octets failed.
    #[error("no memory")]
    Memory,
}

/// A failed allocation is `Memory`.
impl From<AllocError> for SinkFault {
    ghost use Rattle.outside.specs.declared.sink.SinkFault.TheVariants.{Memory};

    ghost from_gives = { λ _ fault. fault ≡ Memory };

    fn from(_error: AllocError) -> SinkFault {
        SinkFault::Memory
    }
}

/// What takes octets.
///
/// `written` is all that was written so far, where an implementation makes it known. `faults`
/// counts the writes that failed. `is_reliable` says that no write fails from now on.
/// `wants_memory` says that a write may need an allocation.
pub trait Sink {
    ghost written: { Self → Option (List ℕ) };

    ghost faults: { Self → ℕ };

    ghost is_reliable: { Self → Type 0 };

    ghost wants_memory: { Self → Type 0 };

    /// Writes all of the octets. After an `Err` a prefix of them was written.
    fn put(&mut self, octets: &[u8]) -> Result<(), SinkFault>
        ensures ok { OnOk result (HasGrownBy (written self.old) (written self.new) octets.now) }
        ensures err { OnErr result
            (HasGrownByPrefix (written self.old) (written self.new) octets.now) }
        ensures failed { IsErrOf result SinkFault.Failed
            → HasRisen (faults self.old) (faults self.new) }
        ensures counts { faults self.old ≤ faults self.new }

        // Only a sink that may need an allocation answers `Memory`, and no other sink becomes one.
        ensures memory { IsErrOf result SinkFault.Memory → wants_memory self.old }
        ensures same_memory { wants_memory self.new → wants_memory self.old }

        // A write to a reliable sink does not fail, and the sink stays reliable.
        ensures reliable { is_reliable self.old → ¬ IsErrOf result SinkFault.Failed }
        ensures no_fault { is_reliable self.old → faults self.new ≡ faults self.old }
        ensures stays_reliable { is_reliable self.old → is_reliable self.new };
}
