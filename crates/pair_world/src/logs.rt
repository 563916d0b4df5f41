//! What a run writes down: its journal, and how many links began.
ghost use Rattle.std.specs.Prelude.{◌≡◌, ◌+◌, ◌^◌, ◌<◌, [], ◌∷◌, IfOk, OnOk, OnErr};
ghost use Rattle.pair_world.specs.Logs.{first_log, with_entries};

use journal::{Entry, Journal, Octets};
use std::alloc::{AllocError, Global};
use std::marker::Model;

/// The journal of a run, and how many links began in it.
#[derive(Drop)]
pub(crate) struct Log {
    alloc: Global,
    journal: Journal,
    links: u64,
}

impl Model for Log {
    ghost use Rattle.pair_world.specs.Logs.{LogState};

    ghost Value = { LogState };

    ghost view = { λ log. record { entries = log.journal; links = log.links } };
}

impl Log {
    /// A log with nothing in it.
    pub(crate) fn new(alloc: Global) -> Self
        ensures { result ≡ first_log }
    {
        Log {
            alloc,
            journal: Journal::new(alloc),
            links: 0,
        }
    }

    /// The journal.
    pub(crate) fn into_journal(self) -> Journal
        ensures { result ≡ self.entries }
    {
        self.journal
    }

    /// A copy of octets, for an entry.
    pub(crate) fn copy(&self, octets: &[u8]) -> Result<Octets, AllocError>
        ensures { IfOk result (λ copied. copied ≡ octets.now) }
    {
        Octets::copy(self.alloc, octets)
    }

    /// Writes an entry. After an error nothing has changed.
    pub(crate) fn write(&mut self, entry: Entry) -> Result<(), AllocError>
        ensures ok { OnOk result (self.new ≡ with_entries (entry ∷ []) self.old) }
        ensures err { OnErr result (self.new ≡ self.old) }
    {
        self.journal.push(entry)
    }

    /// Counts one more link, and gives its number.
    pub(crate) fn begin_link(&mut self) -> u64
        requires { self.old.links + 1 < 2 ^ 64 }
        ensures value { result ≡ self.old.links + 1 }
        ensures links { self.new ≡ record self.old { links = self.old.links + 1 } }
    {
        self.links += 1;
        self.links
    }
}
