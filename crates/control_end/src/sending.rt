//! What an end sends, and what the sending and the acknowledgement of it do.
ghost use Rattle.std.specs.Prelude.{◌≡◌, ◌≤◌, IfSome, IsSome};
ghost use Rattle.data_pdu.specs.Ranges.{IsInRange};
ghost use Rattle.instants.specs.Track.{HasInterval, track_after_take};
ghost use Rattle.control_model.specs.Control.{Step};
ghost use Rattle.control_end.specs.Answers.{done_by_acknowledgement, goes_on, indication_next};
ghost use Rattle.control_end.specs.Answers.{is_unacknowledged, next_ctrl, own_indication};
ghost use Rattle.control_end.specs.Following.{CanFollow};
ghost use Rattle.control_end.specs.Held.{held_after};

use crate::end::ControlEnd;
use ble_base::{Kind, Role, SlotNo};
use data_pdu::Ctrl;
use instants::{Indication, ParamTrack};

/// The indication that an end with this role follows as it sends it.
fn own_indication(role: Role, indication: Option<Indication>) -> Option<Indication>
    ensures { result ≡ own_indication role indication }
{
    match role {
        Role::Central => indication,
        Role::Peripheral => None,
    }
}

/// A track follows an indication that this end sends.
fn follow(track: &mut ParamTrack, indication: Indication)
    requires can { CanFollow track.old indication }
    requires entered { 1 ≤ track.old.entered }
    requires interval { HasInterval indication }
    ensures { track.new ≡ track_after_take track.old indication }
{
    if track.take(indication).is_err() {
        unreachable!();
    }
}

impl ControlEnd {
    /// The control PDU that goes next in the event entered last, with the latency of the parameters
    /// of that event; `quiet` is phase Clear or Secure. There is none where nothing waits that may
    /// be sent, or this end ended the link.
    pub fn next(&self, quiet: bool) -> Option<Ctrl>
        requires { 1 ≤ self.now.track.entered }
        ensures value { result ≡ next_ctrl quiet self.now }
        ensures in_range { IfSome result IsInRange }
    {
        if !self.goes_on() {
            return None;
        }
        let latency = self.track.params().latency;
        self.table.next_ctrl(self.track.event(), latency, quiet)
    }

    /// The control PDU that `next` gives was first sent, in a slot of the event entered last. A
    /// central follows its own indication from its Instant on (Core 5.2, volume 6 part B, section
    /// 5.5). Nothing happens if there is none.
    pub fn send(&mut self, slot: SlotNo, quiet: bool)
        requires entered { 1 ≤ self.old.track.entered }
        requires can_follow { IfSome (indication_next slot.0 quiet self.old)
            (CanFollow self.old.track) }
        ensures { self.new ≡ held_after (Step.Sends slot.0 quiet) self.old }
    {
        if self.next(quiet).is_some() {
            self.send_next(slot, quiet);
        }
    }

    /// The next control PDU was sent.
    fn send_next(&mut self, slot: SlotNo, quiet: bool)
        requires entered { 1 ≤ self.old.track.entered }
        requires waits { IsSome (next_ctrl quiet self.old) }
        requires can_follow { IfSome (indication_next slot.0 quiet self.old)
            (CanFollow self.old.track) }
        ensures { self.new ≡ held_after (Step.Sends slot.0 quiet) self.old }
    {
        let role = self.table.role();
        let event = self.track.event();
        let latency = self.track.params().latency;
        let indication = self.table.went(event, latency, quiet, slot);
        if let Some(indication) = own_indication(role, indication) {
            follow(&mut self.track, indication);
        }
    }

    /// Whether a control PDU was sent that is not acknowledged.
    pub fn is_out(&self) -> bool
        ensures { result ≡ is_unacknowledged self.now }
    {
        self.goes_on() && self.table.is_out()
    }

    /// The control PDU that was sent last was acknowledged. The answer is the procedure of this end
    /// that it completes. Nothing happens if there is none.
    pub fn acked(&mut self) -> Option<Kind>
        ensures step { self.new ≡ held_after Step.SeesAcknowledged self.old }
        ensures done { result ≡ done_by_acknowledgement self.old }
    {
        if self.is_out() {
            self.table.acked()
        } else {
            None
        }
    }
}
