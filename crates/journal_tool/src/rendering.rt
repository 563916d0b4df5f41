//! The trait of what is made of a journal.
ghost use Rattle.std.specs.Prelude.{◌<◌, ◌^◌, ℕ, List, length};
ghost use Rattle.journal.specs.declared.entries.Entry.{Entry};
ghost use Rattle.journal_tool.specs.Writing.{IsWritten, takes_memory};

use journal::Entry;
use outside::{Sink, SinkFault};
use std::alloc::Global;

/// What is made of a journal. `octets` is all that is made of some entries.
pub trait Rendering {
    ghost octets: { Self → List Entry → List ℕ };

    /// Writes what is made of the entries. After an `Err` a prefix of it was written.
    fn write<O: Sink>(&self, alloc: Global, entries: &[Entry], out: &mut O) -> Result<(), SinkFault>
        requires { length entries.now < 2 ^ 32 }
        ensures { IsWritten O.written O.faults O.is_reliable takes_memory out.old out.new result
            (octets self.now entries.now) };
}
