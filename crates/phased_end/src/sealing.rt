//! Payloads that go out and come in, sealed or not (Core 5.2, volume 6 part E, section 2). They are
//! sealed and opened whether or not this end ended the link: the packet that ends it is still one of
//! the session.
ghost use Rattle.std.specs.Prelude.{◌≡◌, ◌≤◌, ◌<◌, ◌^◌, length, is_ok, IfOk};
ghost use Rattle.enc_phase.specs.Sealing.{after_sending, is_right, longest_payload, opened_body};
ghost use Rattle.enc_phase.specs.Sealing.{sent_payload};
ghost use Rattle.keyed_control.specs.KeyedSteps.{KeyedStep};
ghost use Rattle.phased_end.specs.Held.{held_after};
ghost use Rattle.phased_end.specs.Reached.{IsReached};

use crate::end::PhasedEnd;
use arrayvec::ArrayVec;
use enc_phase::Forged;

impl PhasedEnd {
    /// The payload of a new PDU with this first header octet and a body of 1 to 251 octets: sealed
    /// where the phase says so, with the next counter.
    pub fn seal(&mut self, header: u8, body: &[u8]) -> ArrayVec<u8, 255>
        requires reached { IsReached self.old }
        requires counter { self.old.end.sent < 2 ^ 39 }
        requires some { 1 ≤ length body.now }
        requires room { length body.now ≤ 251 }
        ensures payload { result.items ≡ sent_payload self.old.end header body.now }
        ensures counted { self.new ≡ record self.old { end = after_sending self.old.end } }
        ensures step { self.new ≡ held_after (KeyedStep.Seals header body.now) self.old }
        ensures reached { IsReached self.new }
    {
        self.phase.send_ctrl(header, body)
    }

    /// Opens the payload of a new nonempty PDU of the peer with this first header octet: sealed
    /// where the phase says so, with the next counter. Sealed, it has at most 255 octets, else 251.
    pub fn open(&mut self, header: u8, payload: &[u8]) -> Result<ArrayVec<u8, 251>, Forged>
        requires reached { IsReached self.old }
        requires counter { self.old.end.opened < 2 ^ 39 }
        requires room { length payload.now ≤ longest_payload self.old.end }
        ensures right { is_ok result ≡ is_right self.old.end header payload.now }
        ensures opened { IfOk result (λ o. o.items ≡ opened_body self.old.end payload.now) }
        ensures step { self.new ≡ held_after (KeyedStep.Opens header payload.now) self.old }
        ensures reached { IsReached self.new }
    {
        self.phase.open_pdu(header, payload)
    }

    /// Whether `open` would open this payload.
    pub fn would_open(&self, header: u8, payload: &[u8]) -> bool
        requires counter { self.now.end.opened < 2 ^ 39 }
        requires room { length payload.now ≤ longest_payload self.now.end }
        ensures { result ≡ is_right self.now.end header payload.now }
    {
        self.phase.try_pdu(header, payload)
    }
}
