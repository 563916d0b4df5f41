//! How many control PDUs of a table wait to be sent, and which of them goes next.
ghost use Rattle.std.specs.Prelude.{◌≡◌, ◌&&◌};
ghost use Rattle.procedure_stages.specs.Closing.{is_disconnecting};
ghost use Rattle.procedure_stages.specs.Queue.{waiting_in};
ghost use Rattle.procedures.specs.Queue.{next_of};

use crate::table::ProcTable;
use ble_base::EventNo;
use procedure_stages::{Draft, Outgoing};

impl ProcTable {
    /// How many control PDUs wait to be sent.
    pub fn waiting(&self) -> usize
        ensures { result ≡ waiting_in self.now.queue }
    {
        self.queue.waiting()
    }

    /// The control PDUs that wait to be sent, in order, without rejections and LL_TERMINATE_IND of a
    /// Disconnect.
    pub fn drafts(&self) -> &[Draft]
        ensures { result.now ≡ self.now.queue.drafts }
    {
        self.queue.drafts()
    }

    /// Whether nothing but rejections goes before LL_TERMINATE_IND of a Disconnect.
    pub(crate) fn ends(&self, quiet: bool) -> bool
        ensures { result ≡ (is_disconnecting self.now.closing && quiet) }
    {
        self.closing.is_disconnecting() && quiet
    }

    /// What is sent next in an event, `quiet` being phase Clear or Secure.
    pub(crate) fn next(&self, event: EventNo, quiet: bool) -> Outgoing
        ensures { result ≡ next_of self.now event.0 quiet }
    {
        self.queue.next(self.ends(quiet), self.progress, event)
    }
}
