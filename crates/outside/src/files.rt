//! The trait of all that the program reads: whole files by their names.
ghost use Rattle.std.specs.Prelude.{◌≡◌, ℕ, ◌<◌, ◌≤◌, List, Option, length, IfOk, IsErrOf};
ghost use Rattle.outside.specs.Count.{HasRisen};
ghost use Rattle.outside.specs.Known.{WhereKnown};

use std::alloc::{AllocError, Global};
use thiserror::Error;

/// Why a file was not read.
#[derive(Clone, Copy, Debug, PartialEq, Eq, Error)]
pub enum FileFault {
    /// The read failed, and the count of faults of its name rose.
    #[error("the file could not be read")]
    Failed,
    /// The file is longer than the limit.
    #[error("the file is too long")]
    TooLong,
    /// An allocation for the content failed.
    #[error("no memory")]
    Memory,
}

/// A failed allocation is `Memory`.
impl From<AllocError> for FileFault {
    ghost use Rattle.outside.specs.declared.files.FileFault.TheVariants.{Memory};

    ghost from_gives = { λ _ fault. fault ≡ Memory };

    fn from(_error: AllocError) -> FileFault {
        FileFault::Memory
    }
}

/// Files by their names.
///
/// `content` is what a name holds, where an implementation makes it known. `faults` counts the
/// reads of each name that failed. `is_reliable` says of a name that no read of it fails from now
/// on.
pub trait Files {
    ghost content: { Self → List ℕ → Option (List ℕ) };

    ghost faults: { Self → List ℕ → ℕ };

    ghost is_reliable: { Self → List ℕ → Type 0 };

    /// Reads a whole file of at most `limit` octets.
    ///
    /// The answer is `Memory` only where an allocation failed. No clause can say when that is.
    fn read_file(&mut self, alloc: Global, name: &str, limit: u32) -> Result<Vec<u8>, FileFault>
        // What was read, or why it was not.
        ensures fits { IfOk result (λ octets. length octets.items ≤ limit) }
        ensures ok { IfOk result (λ octets.
            WhereKnown (content self.old name.now) (λ c. octets.items ≡ c)) }
        ensures too_long { IsErrOf result FileFault.TooLong
            → WhereKnown (content self.old name.now) (λ c. limit < length c) }
        ensures failed { IsErrOf result FileFault.Failed
            → HasRisen (faults self.old name.now) (faults self.new name.now) }

        // What stays the same of all names.
        ensures contents { (other : List ℕ) → content self.new other ≡ content self.old other }
        ensures counts { (other : List ℕ) → faults self.old other ≤ faults self.new other }

        // A read of a reliable name does not fail, and the name stays reliable.
        ensures reliable { is_reliable self.old name.now → ¬ IsErrOf result FileFault.Failed }
        ensures no_fault { (other : List ℕ) → is_reliable self.old other
            → faults self.new other ≡ faults self.old other }
        ensures stays_reliable { (other : List ℕ)
            → is_reliable self.old other → is_reliable self.new other };
}
