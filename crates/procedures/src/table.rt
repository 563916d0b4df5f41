//! The procedures of one end of a link.
ghost use Rattle.std.specs.Prelude.{◌≡◌, not};
ghost use Rattle.procedure_stages.specs.Closing.{is_open};
ghost use Rattle.procedure_stages.specs.InProgress.{is_busy};
ghost use Rattle.procedure_stages.specs.Kinds.{role_of};
ghost use Rattle.procedure_stages.specs.procedure_values.Limits.{rx_of, tx_of};
ghost use Rattle.procedure_stages.specs.procedure_values.Values.{IsPayloadMax};
ghost use Rattle.procedures.specs.Table.{first_facts};

use ble_base::{Role, SlotNo};
use procedure_stages::{Closing, Lengths, Outgoing, PayloadMax, Progress, Queue, Wants};
use std::marker::Model;

/// The table of control procedures of one end of a link (Core 5.2, volume 6 part B, section 5.1).
///
/// It holds what the host wants, what either end began, and the control PDUs that wait to be sent.
#[derive(Drop)]
pub struct ProcTable {
    /// What either end began.
    pub(crate) progress: Progress,
    /// What the host wants and was not begun, in order.
    pub(crate) wanted: Wants,
    /// The control PDUs that wait to be sent.
    pub(crate) queue: Queue,
    /// The control PDU that was sent last, until it is acknowledged.
    pub(crate) out: Outgoing,
    /// Whether the link is to end.
    pub(crate) closing: Closing,
    /// The longest payloads.
    pub(crate) lengths: Lengths,
    /// Whether the own LL_VERSION_IND was queued: it is sent once.
    pub(crate) version_used: bool,
    /// The slot in which the last PDU of the procedure that this end began was first sent or taken,
    /// once one was.
    pub(crate) since: Option<SlotNo>,
}

impl Model for ProcTable {
    ghost use Rattle.procedures.specs.Table.{TableFacts};

    ghost Value = { TableFacts };

    ghost view = { λ t. record {
      progress = t.progress;
      wanted = t.wanted;
      queue = t.queue;
      out = t.out;
      closing = t.closing;
      lengths = t.lengths;
      version_used = t.version_used;
      since = t.since;
    } };

    ghost inverse = { λ f. record {
      progress = f.progress;
      wanted = f.wanted;
      queue = f.queue;
      out = f.out;
      closing = f.closing;
      lengths = f.lengths;
      version_used = f.version_used;
      since = f.since;
    } };
}

impl ProcTable {
    /// The table of a new link, at the end with this role, which receives payloads of at most
    /// `max_rx` octets, 27 to 251.
    pub fn new(role: Role, max_rx: u16) -> Self
        requires { IsPayloadMax max_rx }
        ensures { result ≡ first_facts role max_rx }
    {
        ProcTable {
            progress: Progress::first(role),
            wanted: Wants::new(),
            queue: Queue::new(),
            out: Outgoing::Nothing,
            closing: Closing::Open,
            lengths: Lengths::first(PayloadMax::new(max_rx)),
            version_used: false,
            since: None,
        }
    }

    /// The role of this end in its link.
    pub fn role(&self) -> Role
        ensures { result ≡ role_of self.now.progress }
    {
        self.progress.role()
    }

    /// Whether the link is to end: a Disconnect of the host was accepted, or LL_TERMINATE_IND was
    /// taken or queued (Core 5.2, volume 6 part B, section 5.1.6).
    pub fn is_closing(&self) -> bool
        ensures { result ≡ not (is_open self.now.closing) }
    {
        !self.closing.is_open()
    }

    /// Whether a procedure that either end began is in progress here.
    pub fn busy(&self) -> bool
        ensures { result ≡ is_busy self.now.progress }
    {
        self.progress.is_busy()
    }

    /// The most octets of a payload that this end receives, and the most that it transmits.
    pub fn lengths(&self) -> (u16, u16)
        ensures { result ≡ (rx_of self.now.lengths, tx_of self.now.lengths) }
    {
        (self.lengths.rx(), self.lengths.tx())
    }
}
