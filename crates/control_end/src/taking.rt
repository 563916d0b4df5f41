//! What an end does with a control PDU of the peer, and with one of the encryption that it owes.
ghost use Rattle.std.specs.Prelude.{◌≡◌, ◌≤◌, ◌<◌, IsTrue, Some};
ghost use Rattle.data_pdu.specs.Ranges.{IsInRange};
ghost use Rattle.data_pdu.specs.Reading.{IfKnown};
ghost use Rattle.control_model.specs.procedures.procedure_stages.Queue.{waiting_in};
ghost use Rattle.control_model.specs.Control.{Step};
ghost use Rattle.control_end.specs.Answers.{goes_on, taken_of};
ghost use Rattle.control_end.specs.Following.{indication_followed, track_following};
ghost use Rattle.control_end.specs.Held.{held_after};

use crate::answers::{Taken, nothing_taken, step_shown};
use crate::end::ControlEnd;
use ble_base::{ErrCode, SlotNo};
use data_pdu::{Ctrl, CtrlRead};
use instants::ParamTrack;

impl ControlEnd {
    /// Takes a control PDU of the peer in a slot of the event entered last, `quiet` being phase
    /// Clear or Secure (Core 5.2, volume 6 part B, section 5.1).
    ///
    /// A peripheral follows an indication from its Instant on. Where the table of procedures ends
    /// the link, or the Instant has passed (section 5.5.1), this end keeps all as it was, and
    /// `ends` gives the error.
    pub fn take(&mut self, read: &CtrlRead, slot: SlotNo, quiet: bool) -> Taken
        requires entered { 1 ≤ self.old.track.entered }
        requires in_range { IfKnown read.now IsInRange }
        ensures step { self.new ≡ held_after (Step.Takes read.now slot.0 quiet) self.old }
        ensures taken { result ≡ taken_of read.now slot.0 quiet self.old }
    {
        if self.ends.is_some() {
            return nothing_taken();
        }
        let Some(track) = self.track_after(read) else {
            self.ends = Some(ErrCode::INSTANT_PASSED);
            return nothing_taken();
        };
        self.take_by(track, read, slot, quiet)
    }

    /// Takes a control PDU after which the track is this one, unless the table ends the link.
    fn take_by(&mut self, track: ParamTrack, read: &CtrlRead, slot: SlotNo, quiet: bool) -> Taken
        requires goes_on { IsTrue (goes_on self.old) }
        requires track { track_following (indication_followed read.now self.old) self.old.track
            ≡ Some track }
        requires in_range { IfKnown read.now IsInRange }
        ensures step { self.new ≡ held_after (Step.Takes read.now slot.0 quiet) self.old }
        ensures taken { result ≡ taken_of read.now slot.0 quiet self.old }
    {
        let step = self.table.took(read, slot, quiet);
        if step.ends.is_some() {
            self.ends = step.ends;
            return nothing_taken();
        }
        self.track = track;
        step_shown(&step)
    }

    /// Queues a PDU of the encryption procedures, the refusal of an encryption start, or
    /// LL_TERMINATE_IND where a key is missing (Core 5.2, volume 6 part B, section 5.1.3).
    pub fn owe(&mut self, ctrl: Ctrl)
        requires in_range { IsInRange ctrl }
        requires room { waiting_in self.old.table.queue < 24 }
        ensures { self.new ≡ held_after (Step.Owes ctrl) self.old }
    {
        if self.goes_on() {
            self.table.owe(ctrl);
        }
    }
}
