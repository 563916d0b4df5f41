//! What an end sends, and what the sending and the acknowledgement of it do.
ghost use Rattle.std.specs.Prelude.{◌≡◌, ◌≤◌, ◌<◌, IfSome};
ghost use Rattle.data_pdu.specs.Ranges.{IsInRange};
ghost use Rattle.procedures.specs.procedure_stages.Queue.{waiting_in};
ghost use Rattle.control_part.specs.control_end.Answers.{done_by_acknowledgement};
ghost use Rattle.control_part.specs.control_end.Answers.{is_unacknowledged, next_ctrl};
ghost use Rattle.keyed_control.specs.KeyedSteps.{KeyedStep};
ghost use Rattle.phased_end.specs.Answers.{quiet_now};
ghost use Rattle.phased_end.specs.Held.{held_after};
ghost use Rattle.phased_end.specs.Moves.{asks_again_now};
ghost use Rattle.phased_end.specs.Reached.{IsReached};

use crate::end::PhasedEnd;
use ble_base::{Kind, SlotNo};
use data_pdu::Ctrl;
use enc_phase::Transition;

impl PhasedEnd {
    /// The control PDU that goes next in the event entered last. There is none where nothing waits
    /// that may be sent, or this end ended the link.
    pub fn next(&self) -> Option<Ctrl>
        requires { 1 ≤ self.now.control.track.entered }
        ensures value { result ≡ next_ctrl (quiet_now self.now) self.now.control }
        ensures in_range { IfSome result IsInRange }
    {
        self.control.next(self.is_quiet())
    }

    /// The control PDU that `next` gives was first sent, in a slot of the event entered last. A
    /// central follows its own indication from its Instant on (Core 5.2, volume 6 part B, section
    /// 5.5). Nothing happens if there is none.
    pub fn send(&mut self, slot: SlotNo)
        requires reached { IsReached self.old }
        requires entered { 1 ≤ self.old.control.track.entered }
        ensures step { self.new ≡ held_after (KeyedStep.Sends slot.0) self.old }
        ensures reached { IsReached self.new }
        ensures entered { 1 ≤ self.new.control.track.entered }
    {
        let quiet = self.is_quiet();
        self.control.send(slot, quiet);
    }

    /// Whether a control PDU was sent that is not acknowledged.
    pub fn is_out(&self) -> bool
        ensures { result ≡ is_unacknowledged self.now.control }
    {
        self.control.is_out()
    }

    /// Whether a central asks for encryption as its last PDU is acknowledged: that was its
    /// LL_PAUSE_ENC_RSP, in a phase in which it may ask.
    fn asks_again(&self) -> bool
        ensures { result ≡ asks_again_now self.now }
    {
        self.goes_on()
            && self.control.pauses()
            && self.phase.facts().may_follow(Transition::Ask)
            && !self.is_closing()
            && self.request.is_some()
    }

    /// The control PDU that was sent last was acknowledged. The answer is the procedure of this end
    /// that it completes. After its LL_PAUSE_ENC_RSP a central queues LL_ENC_REQ (Core 5.2, volume
    /// 6 part B, section 5.1.3.2). Nothing happens if there is none.
    #[tactic(auto, using(crate::proofs::Reached::reached_room))]
    pub fn acked(&mut self) -> Option<Kind>
        requires reached { IsReached self.old }
        ensures step { self.new ≡ held_after KeyedStep.SeesAcknowledged self.old }
        ensures done { result ≡ done_by_acknowledgement self.old.control }
        ensures reached { IsReached self.new }
        ensures entered { 1 ≤ self.old.control.track.entered
            → 1 ≤ self.new.control.track.entered }
    {
        let asks = self.asks_again();
        let done = self.control.acked();
        if asks {
            self.send_request();
        }
        done
    }
}
