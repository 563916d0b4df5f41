//! Why the program does not end with status 0, and how the faults of its parts become such a fault.
ghost use Rattle.std.specs.Prelude.{◌≡◌};
ghost use Rattle.journal_tool.specs.Causes.{fault_of_file, fault_of_journal, fault_of_sink};
ghost use Rattle.journal_tool.specs.Endings.{status_of};

use journal::JournalFault;
use outside::{FileFault, SinkFault};

/// Why the program does not end with status 0 (our choice).
#[derive(Clone, Copy, Drop)]
pub enum Fault {
    /// The journal could not be read.
    CannotRead,
    /// This line of the journal, counted from 1, is the first outside its grammar.
    BadLine(u32),
    /// The output could not be written.
    CannotWrite,
    /// An allocation failed.
    NoMemory,
    /// The journal is longer than its limit, 134,217,728 octets.
    TooLong,
}

impl Fault {
    /// The exit status.
    pub fn status(&self) -> u8
        ensures { result ≡ status_of self.now }
    {
        match self {
            Fault::CannotRead => 2,
            Fault::BadLine(_) => 3,
            Fault::CannotWrite => 4,
            Fault::NoMemory => 5,
            Fault::TooLong => 7,
        }
    }
}

/// The fault of a read of the file.
pub fn fault_of_file(fault: FileFault) -> Fault
    ensures { result ≡ fault_of_file fault }
{
    match fault {
        FileFault::Failed => Fault::CannotRead,
        FileFault::TooLong => Fault::TooLong,
        FileFault::Memory => Fault::NoMemory,
    }
}

/// The fault of a text that is not that of a journal.
pub fn fault_of_journal(fault: JournalFault) -> Fault
    ensures { result ≡ fault_of_journal fault }
{
    match fault {
        JournalFault::BadLine(line) => Fault::BadLine(line),
        JournalFault::Memory => Fault::NoMemory,
    }
}

/// The fault of a write to the output.
pub fn fault_of_sink(fault: SinkFault) -> Fault
    ensures { result ≡ fault_of_sink fault }
{
    match fault {
        SinkFault::Failed => Fault::CannotWrite,
        SinkFault::Memory => Fault::NoMemory,
    }
}
