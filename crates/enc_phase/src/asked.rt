//! Asked: the phase in which encryption was asked for and has not started.
ghost use Rattle.std.specs.Prelude.{◌≡◌, ◌≤◌, length, not, false, Bool, IsTrue, is_ok, IfOk, OnOk, OnErr};
ghost use Rattle.enc_phase.specs.Phases.{may_follow};
ghost use Rattle.enc_phase.specs.Sealing.{after_opening, after_sending, after_start, after_taking};
ghost use Rattle.enc_phase.specs.Sealing.{after_transition};
ghost use Rattle.enc_phase.specs.Sealing.{is_right, opened_body, sent_payload};
ghost use Rattle.enc_phase.specs.Sealing.{clear_end, of_asked, of_clear, of_half_keyed};

use crate::session::{Keyed, copied};
use crate::{Clear, HalfKeyed, PduClass, PhaseFacts, Session, Transition};
use arrayvec::ArrayVec;
use ble_base::Role;
use ccm_link::Forged;

/// An end that asked for encryption, or was asked for it, and sends no data. It keeps which PDUs
/// the other end has sent in this phase.
#[derive(Drop)]
pub struct Asked {
    role: Role,
    after_pause: bool,
    /// LL_ENC_RSP was taken.
    enc_rsp: bool,
    /// The first PDU of a procedure of the peripheral was taken.
    kept: bool,
}

impl Asked {
    /// An end that has just asked, or was asked.
    pub(crate) fn new(role: Role, after_pause: bool, kept: bool) -> Asked
        ensures { of_asked result ≡ clear_end role (PhaseFacts.Asked after_pause false kept) }
    {
        Asked {
            role,
            after_pause,
            enc_rsp: false,
            kept,
        }
    }

    /// Whether encryption was paused before.
    pub fn after_pause(&self) -> bool
        ensures { result ≡ not (may_follow Transition.Refuse (of_asked self.now).phase) }
    {
        self.after_pause
    }

    /// The session begins: the peripheral queues LL_START_ENC_REQ, the central takes it.
    pub fn key(self, session: Session) -> HalfKeyed
        ensures { of_half_keyed result ≡ after_start session (of_asked self) }
    {
        HalfKeyed::new(Keyed::new(self.role, session))
    }

    /// Encryption is refused: the peripheral queues its rejection, the central takes it. After a
    /// pause it cannot be refused.
    pub fn refuse(self) -> Clear
        requires { IsTrue (may_follow Transition.Refuse (of_asked self).phase) }
        ensures { of_clear result ≡ after_transition Transition.Refuse (of_asked self) }
    {
        Clear::new(self.role)
    }

    /// Keeps what matters of a PDU of this class that is taken.
    pub(crate) fn take(&mut self, class: PduClass)
        ensures { of_asked self.new ≡ after_taking class (of_asked self.old) }
    {
        match class {
            PduClass::EncRsp => self.enc_rsp = true,
            PduClass::Request => self.kept = true,
            _ => {}
        }
    }

    /// The role of the end.
    pub(crate) fn role(&self) -> Role
        ensures { result ≡ (of_asked self.now).role }
    {
        self.role
    }

    /// The phase without its role.
    pub(crate) fn facts(&self) -> PhaseFacts
        ensures { result ≡ (of_asked self.now).phase }
    {
        PhaseFacts::Asked {
            after_pause: self.after_pause,
            enc_rsp: self.enc_rsp,
            kept: self.kept,
        }
    }

    /// The payload of a new control PDU with this first header octet and body, which is the body.
    pub fn send_ctrl(&mut self, header: u8, body: &[u8]) -> ArrayVec<u8, 255>
        requires { length body.now ≤ 251 }
        ensures payload { result.items ≡ sent_payload (of_asked self.old) header body.now }
        ensures counted { of_asked self.new ≡ after_sending (of_asked self.old) }
    {
        copied(body)
    }

    /// Opens the payload of a received PDU with this first header octet, which is its body.
    pub fn open_pdu(&mut self, header: u8, body: &[u8]) -> Result<ArrayVec<u8, 251>, Forged>
        requires { length body.now ≤ 251 }
        ensures right { is_ok result ≡ is_right (of_asked self.old) header body.now }
        ensures opened { IfOk result (λ o. o.items ≡ opened_body (of_asked self.old) body.now) }
        ensures ok { OnOk result (of_asked self.new ≡ after_opening (of_asked self.old)) }
        ensures err { OnErr result (of_asked self.new ≡ of_asked self.old) }
    {
        Ok(copied(body))
    }

    /// Whether `open_pdu` would open this payload.
    pub fn try_pdu(&self, header: u8, body: &[u8]) -> bool
        requires { length body.now ≤ 251 }
        ensures { result ≡ is_right (of_asked self.now) header body.now }
    {
        true
    }

    /// The counter of the next sealed PDU that this end sends.
    pub fn sent(&self) -> u64
        ensures { result ≡ (of_asked self.now).sent }
    {
        0
    }

    /// The counter of the next sealed PDU that this end receives.
    pub fn opened(&self) -> u64
        ensures { result ≡ (of_asked self.now).opened }
    {
        0
    }
}
