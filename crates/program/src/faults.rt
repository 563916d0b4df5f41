//! Why a command does not end with status 0, and how the faults of its parts become such a fault.
ghost use Rattle.std.specs.Prelude.{◌≡◌};
ghost use Rattle.program.specs.Conversions.{fault_of_file, fault_of_sink, fault_of_schedule};
ghost use Rattle.program.specs.Conversions.{end_of};
ghost use Rattle.program.specs.Status.{status_of};

use journal::{Journal, Octets};
use outside::{FileFault, SinkFault};
use pair_world::RunFault;
use radio_replay::ScheduleFault;

/// Why a command does not end with status 0 (our choice).
#[derive(Drop)]
pub enum Fault {
    /// A file could not be read.
    CannotRead {
        /// Its place among the files of the command, counted from 0.
        place: usize,
    },
    /// A line of a file is the first outside the grammar.
    BadLine {
        /// The place of the file among those of the command, counted from 0.
        place: usize,
        /// The number of the line, counted from 1.
        line: u32,
    },
    /// The journal could not be written.
    CannotWrite,
    /// An allocation failed.
    NoMemory,
    /// A packet was changed on the air, and its receiver would judge it good.
    Unseen {
        /// The slot of the turn, counted from 0.
        turn: u64,
        /// The place of the packet among those of the turn, counted from 1.
        packet: u32,
        /// Its octets as sent, from its access address to its CRC.
        sent: Octets,
        /// Its octets as they would be heard.
        heard: Octets,
    },
    /// A file is longer than its limit.
    TooLong {
        /// Its place among the files of the command, counted from 0.
        place: usize,
    },
    /// A line of a file is the first with which there are more than 100,000 turns.
    TooManyTurns {
        /// The place of the file among those of the command, counted from 0.
        place: usize,
        /// The number of the line, counted from 1.
        line: u32,
    },
}

impl Fault {
    /// The exit status, from 2 to 7 (our choice).
    pub fn status(&self) -> u8
        ensures { result ≡ status_of self.now }
    {
        match self {
            Fault::CannotRead { .. } => 2,
            Fault::BadLine { .. } => 3,
            Fault::CannotWrite => 4,
            Fault::NoMemory => 5,
            Fault::Unseen { .. } => 6,
            Fault::TooLong { .. } | Fault::TooManyTurns { .. } => 7,
        }
    }
}

/// The fault of a read of the file at this place.
pub(crate) fn fault_of_file(place: usize, fault: FileFault) -> Fault
    ensures { result ≡ fault_of_file place fault }
{
    match fault {
        FileFault::Failed => Fault::CannotRead { place },
        FileFault::TooLong => Fault::TooLong { place },
        FileFault::Memory => Fault::NoMemory,
    }
}

/// The fault of a write to the output.
pub(crate) fn fault_of_sink(fault: SinkFault) -> Fault
    ensures { result ≡ fault_of_sink fault }
{
    match fault {
        SinkFault::Failed => Fault::CannotWrite,
        SinkFault::Memory => Fault::NoMemory,
    }
}

/// The fault of the schedule at this place.
pub(crate) fn fault_of_schedule(place: usize, fault: ScheduleFault) -> Fault
    ensures { result ≡ fault_of_schedule place fault }
{
    match fault {
        ScheduleFault::BadLine(line) => Fault::BadLine { place, line },
        ScheduleFault::TooLong(line) => Fault::TooManyTurns { place, line },
        ScheduleFault::Memory => Fault::NoMemory,
    }
}

/// What a run leaves: the journal to write, and the fault to report once it is written, if there is
/// one. Where an allocation of the run failed, there is no journal.
pub(crate) fn end_of(run: Result<Journal, RunFault>) -> Result<(Journal, Option<Fault>), Fault>
    ensures { result ≡ end_of run }
{
    match run {
        Ok(journal) => Ok((journal, None)),
        Err(
            RunFault::Unseen {
                turn,
                packet,
                sent,
                heard,
                journal,
            },
        ) => {
            let fault = Fault::Unseen {
                turn,
                packet,
                sent,
                heard,
            };
            Ok((journal, Some(fault)))
        }
        Err(RunFault::Memory) => Err(Fault::NoMemory),
    }
}
