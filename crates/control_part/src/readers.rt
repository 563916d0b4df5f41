//! What the layer above reads of the control part: whether anything goes on, and what is to come.
ghost use Rattle.std.specs.Prelude.{◌≡◌, nat_lt};
ghost use Rattle.instants.specs.Track.{is_free};
ghost use Rattle.procedures.specs.procedure_stages.Closing.{is_disconnecting};
ghost use Rattle.procedures.specs.procedure_stages.InProgress.{is_busy};

use crate::part::ControlPart;
use instants::Change;
use procedures::{Ask, Draft};

impl ControlPart {
    /// Whether an event was entered.
    pub fn has_entered(&self) -> bool
        ensures { result ≡ nat_lt 0 self.now.track.entered }
    {
        self.control.has_entered()
    }

    /// Whether a procedure that either end began is in progress here.
    pub fn is_busy(&self) -> bool
        ensures { result ≡ is_busy self.now.table.progress }
    {
        self.control.is_busy()
    }

    /// Whether no indication waits for its event.
    pub fn is_free(&self) -> bool
        ensures { result ≡ is_free self.now.track }
    {
        self.control.is_free()
    }

    /// The indication that waits, with the event from which it holds.
    pub fn waiting_change(&self) -> Option<Change>
        ensures { result ≡ self.now.track.waits }
    {
        self.control.waiting_change()
    }

    /// Whether a Disconnect of the host was accepted.
    pub fn is_disconnecting(&self) -> bool
        ensures { result ≡ is_disconnecting self.now.table.closing }
    {
        self.control.is_disconnecting()
    }

    /// The control PDUs that wait to be sent, in order, without rejections and LL_TERMINATE_IND of a
    /// Disconnect.
    pub fn drafts(&self) -> &[Draft]
        ensures { result.now ≡ self.now.table.queue.drafts }
    {
        self.control.drafts()
    }
}
