//! What the layer above reads of an end: whether anything goes on, and what is to come.
ghost use Rattle.std.specs.Prelude.{◌≡◌, nat_lt};
ghost use Rattle.instants.specs.Track.{is_free};
ghost use Rattle.control_model.specs.procedures.procedure_stages.Closing.{is_disconnecting};
ghost use Rattle.control_model.specs.procedures.procedure_stages.InProgress.{is_busy};

use crate::end::ControlEnd;
use control_model::{Ask, Draft};
use instants::Change;

impl ControlEnd {
    /// Whether an event was entered.
    pub fn has_entered(&self) -> bool
        ensures { result ≡ nat_lt 0 self.now.track.entered }
    {
        self.track.has_entered()
    }

    /// Whether a procedure that either end began is in progress here.
    pub fn is_busy(&self) -> bool
        ensures { result ≡ is_busy self.now.table.progress }
    {
        self.table.busy()
    }

    /// Whether no indication waits for its event.
    pub fn is_free(&self) -> bool
        ensures { result ≡ is_free self.now.track }
    {
        self.track.free()
    }

    /// The indication that waits, with the event from which it holds.
    pub fn waiting_change(&self) -> Option<Change>
        ensures { result ≡ self.now.track.waits }
    {
        self.track.waiting()
    }

    /// Whether a Disconnect of the host was accepted (Core 5.2, volume 6 part B, section 5.1.6).
    pub fn is_disconnecting(&self) -> bool
        ensures { result ≡ is_disconnecting self.now.table.closing }
    {
        self.table.is_disconnecting()
    }

    /// What the host wants and was not begun, in order.
    pub fn wanted(&self) -> &[Ask]
        ensures { result.now ≡ self.now.table.wanted }
    {
        self.table.wanted()
    }

    /// The control PDUs that wait to be sent, in order, without rejections and LL_TERMINATE_IND of a
    /// Disconnect.
    pub fn drafts(&self) -> &[Draft]
        ensures { result.now ≡ self.now.table.queue.drafts }
    {
        self.table.drafts()
    }
}
