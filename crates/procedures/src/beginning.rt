//! What a host asks, and which of it begins.
ghost use Rattle.std.specs.Prelude.{◌≡◌, ◌&&◌, ◌||◌, ◌<◌};
ghost use Rattle.procedure_stages.specs.procedure_values.Wants.{IsAsk};
ghost use Rattle.procedures.specs.Beginning.{is_version, may_ask_of, ask_step, is_ready};
ghost use Rattle.procedures.specs.Beginning.{place_to_begin, with_first_draft};
ghost use Rattle.procedures.specs.Beginning.{facts_begun, begin_step};
ghost use Rattle.procedure_stages.specs.Queue.{waiting_in};

use crate::table::ProcTable;
use crate::taking::since_after;
use ble_base::{Kind, SlotNo};
use procedure_stages::begun::{draft_begun, first_place, progress_begun};
use procedure_stages::kinds::is_kind;
use procedure_stages::{Ask, Draft, lengths_asked};

/// Whether an exchange of versions is asked for.
fn is_version(ask: &Ask) -> bool
    ensures { result ≡ is_version ask.now }
{
    matches!(ask, Ask::Version)
}

/// Whether it is one after the own LL_VERSION_IND was queued.
fn is_second(ask: &Ask, used: bool) -> bool
    ensures { result ≡ (is_version ask.now && used) }
{
    is_version(ask) && used
}

/// Whether the own LL_VERSION_IND was queued, after a procedure began.
fn used_after(ask: &Ask, used: bool) -> bool
    ensures { result ≡ (used || is_version ask.now) }
{
    used || is_version(ask)
}

impl ProcTable {
    /// Whether the host may ask for a procedure of this kind: it is neither wanted nor running
    /// here.
    pub fn may_ask(&self, kind: Kind) -> bool
        ensures { result ≡ may_ask_of self.now kind }
    {
        !(self.wanted.has(kind) || is_kind(self.progress.own_kind(), kind))
    }

    /// What the host wants and was not begun, in order.
    pub fn wanted(&self) -> &[Ask]
        ensures { result.now ≡ self.now.wanted }
    {
        self.wanted.as_slice()
    }

    /// The host asks for a procedure, with values in their ranges. A map takes the place of one that
    /// is wanted. A limit on what is transmitted holds at once.
    pub fn ask(&mut self, ask: Ask)
        requires { IsAsk ask }
        ensures { self.new ≡ ask_step self.old ask }
    {
        self.lengths = lengths_asked(&ask, self.lengths);
        self.wanted.add(ask);
    }

    /// Whether something of the host may begin, whatever the peer does.
    fn is_ready(&self, quiet: bool) -> bool
        ensures { result ≡ is_ready self.now quiet }
    {
        self.progress.own_kind().is_none() && quiet && self.closing.is_open()
    }

    /// The place of the first wanted kind that may begin.
    fn place_to_begin(&self, quiet: bool) -> Option<usize>
        ensures { result ≡ place_to_begin self.now quiet }
    {
        first_place(self.is_ready(quiet), self.progress, self.wanted.as_slice())
    }

    /// Queues the first PDU of a procedure.
    fn queue_first(&mut self, draft: Option<Draft>)
        requires { waiting_in self.old.queue < 24 }
        ensures { self.new ≡ record self.old {
          queue = with_first_draft self.old.closing draft self.old.queue;
        } }
    {
        if let Some(draft) = draft {
            self.queue.push_draft(self.closing, draft);
        }
    }

    /// Begins a procedure, which is no longer among what is wanted.
    fn start(&mut self, slot: SlotNo, ask: &Ask)
        requires room { waiting_in self.old.queue < 24 }
        requires in_range { IsAsk ask.now }
        ensures { self.new ≡ facts_begun self.old slot.0 ask.now self.old.wanted }
    {
        let draft = draft_begun(self.progress.role(), self.version_used, self.lengths, ask);
        self.queue_first(draft);
        self.progress = progress_begun(ask, self.version_used, self.progress);
        self.since = since_after(is_second(ask, self.version_used), slot, None);
        self.version_used = used_after(ask, self.version_used);
    }

    /// Begins the first procedure that the host wants and that may begin, as an event is entered,
    /// `quiet` being phase Clear or Secure. None if none may.
    ///
    /// The first PDU of an encryption is left to the layer above, which hands it to `owe`.
    pub fn begin(&mut self, slot: SlotNo, quiet: bool) -> Option<Kind>
        requires { waiting_in self.old.queue < 24 }
        ensures { (self.new, result) ≡ begin_step self.old slot.0 quiet }
    {
        let place = self.place_to_begin(quiet)?;
        let ask = self.wanted.get(place);
        self.wanted.remove(place);
        self.start(slot, &ask);
        Some(ask.kind())
    }
}
