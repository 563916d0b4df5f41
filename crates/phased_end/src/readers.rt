//! What the layer above reads of an end: whether anything goes on, what is to come, what is kept,
//! and whether the procedures see a PDU.
ghost use Rattle.std.specs.Prelude.{◌≡◌, nat_lt};
ghost use Rattle.instants.specs.Track.{is_free};
ghost use Rattle.procedures.specs.procedure_stages.Closing.{is_disconnecting};
ghost use Rattle.procedures.specs.procedure_stages.InProgress.{is_busy};
ghost use Rattle.phased_end.specs.Taking.{is_handed};

use crate::end::PhasedEnd;
use data_pdu::{Ctrl, CtrlRead};
use instants::Change;
use procedures::{Ask, Draft};

impl PhasedEnd {
    /// Whether an event was entered.
    pub fn has_entered(&self) -> bool
        ensures { result ≡ nat_lt 0 self.now.control.track.entered }
    {
        self.control.has_entered()
    }

    /// Whether a procedure that either end began is in progress here.
    pub fn is_busy(&self) -> bool
        ensures { result ≡ is_busy self.now.control.table.progress }
    {
        self.control.is_busy()
    }

    /// Whether no indication waits for its event.
    pub fn is_free(&self) -> bool
        ensures { result ≡ is_free self.now.control.track }
    {
        self.control.is_free()
    }

    /// The indication that waits, with the event from which it holds.
    pub fn waiting_change(&self) -> Option<Change>
        ensures { result ≡ self.now.control.track.waits }
    {
        self.control.waiting_change()
    }

    /// Whether a Disconnect of the host was accepted (Core 5.2, volume 6 part B, section 5.1.6).
    pub fn is_disconnecting(&self) -> bool
        ensures { result ≡ is_disconnecting self.now.control.table.closing }
    {
        self.control.is_disconnecting()
    }

    /// What the host wants and was not begun, in order.
    pub fn wanted(&self) -> &[Ask]
        ensures { result.now ≡ self.now.control.table.wanted }
    {
        self.control.wanted()
    }

    /// The control PDUs that wait to be sent, in order, without rejections and LL_TERMINATE_IND of a
    /// Disconnect.
    pub fn drafts(&self) -> &[Draft]
        ensures { result.now ≡ self.now.control.table.queue.drafts }
    {
        self.control.drafts()
    }

    /// The PDU that a central keeps until the phase is Clear or Secure.
    pub fn kept(&self) -> Option<Ctrl>
        ensures { result ≡ self.now.kept }
    {
        match &self.kept {
            Some(kept) => Some(kept.ctrl()),
            None => None,
        }
    }

    /// Whether the procedures would see this PDU as `take` takes it.
    pub fn would_see(&self, read: &CtrlRead) -> bool
        ensures { result ≡ is_handed read.now self.now }
    {
        self.goes_on() && self.is_allowed(read) && !self.does_keep(read) && !self.lacks_room(read)
    }
}
