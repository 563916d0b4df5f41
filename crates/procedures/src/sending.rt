//! What an end sends, and what the sending and the acknowledgement of it do.
ghost use Rattle.std.specs.Prelude.{◌≡◌, ◌<◌, ◌^◌, IfSome, IsSome, IsTrue};
ghost use Rattle.data_pdu.specs.Ranges.{IsInRange};
ghost use Rattle.instants.specs.Track.{HasInterval};
ghost use Rattle.procedure_stages.specs.procedure_values.Drafts.{is_out};
ghost use Rattle.procedures.specs.Sending.{next_ctrl_of, went_step, acked_step};

use crate::table::ProcTable;
use crate::taking::since_after;
use ble_base::{EventNo, Kind, SlotNo};
use data_pdu::Ctrl;
use instants::Indication;
use procedure_stages::Outgoing;

impl ProcTable {
    /// Whether a control PDU was sent that is not acknowledged.
    pub fn is_out(&self) -> bool
        ensures { result ≡ is_out self.now.out }
    {
        self.out.is_some()
    }

    /// The control PDU that this end sends next in an event, of a link whose peripheral may skip
    /// `latency` events; `quiet` is phase Clear or Secure. There is none if nothing waits that may
    /// be sent: LL_TERMINATE_IND of a Disconnect waits for such a phase and holds back all but
    /// rejections in it, and an indication, or the first PDU of a central's PHY update, waits until
    /// the event after the Instant of the indication before.
    pub fn next_ctrl(&self, event: EventNo, latency: u16, quiet: bool) -> Option<Ctrl>
        requires { event.0 < 2 ^ 32 }
        ensures value { result ≡ next_ctrl_of self.now event.0 latency quiet }
        ensures in_range { IfSome result IsInRange }
    {
        self.next(event, quiet).ctrl(event, latency)
    }

    /// The control PDU that `next_ctrl` gives was sent in a slot. The answer is the indication that
    /// it is, if the central of a link follows it from now on.
    pub fn went(
        &mut self,
        event: EventNo,
        latency: u16,
        quiet: bool,
        slot: SlotNo,
    ) -> Option<Indication>
        requires event { event.0 < 2 ^ 32 }
        requires waits { IsSome (next_ctrl_of self.old event.0 latency quiet) }
        ensures step { (self.new, result) ≡ went_step self.old event.0 latency quiet slot.0 }
        ensures interval { IfSome result HasInterval }
    {
        let ends = self.ends(quiet);
        let next = self.queue.take_next(ends, self.progress, event);
        self.since = since_after(self.progress.owns(&next), slot, self.since);
        self.progress = self.progress.after_sending(&next, event, latency);
        self.out = next;
        next.indication(event, latency)
    }

    /// The control PDU that was sent last was acknowledged. The answer is the procedure of this end
    /// that it completes.
    pub fn acked(&mut self) -> Option<Kind>
        requires { IsTrue (is_out self.old.out) }
        ensures { (self.new, result) ≡ acked_step self.old }
    {
        let done = self.progress.done_by_ack(&self.out);
        self.progress = self.progress.acked(&self.out);
        self.out = Outgoing::Nothing;
        done
    }
}
