//! Clear: the phase without encryption.
ghost use Rattle.std.specs.Prelude.{◌≡◌, ◌≤◌, length, is_ok, IfOk, OnOk, OnErr};
ghost use Rattle.enc_phase.specs.Sealing.{after_opening, after_sending, after_transition};
ghost use Rattle.enc_phase.specs.Sealing.{is_right, opened_body, sent_payload};
ghost use Rattle.enc_phase.specs.Sealing.{clear_end, of_asked, of_clear};

use crate::session::copied;
use crate::{Asked, PhaseFacts, Transition};
use arrayvec::ArrayVec;
use ble_base::Role;
use ccm_link::Forged;

/// An end without encryption, which may send data.
#[derive(Drop)]
pub struct Clear {
    role: Role,
}

impl Clear {
    /// An end with this role, as its link begins.
    pub fn new(role: Role) -> Clear
        ensures { of_clear result ≡ clear_end role PhaseFacts.Clear }
    {
        Clear { role }
    }

    /// Encryption is asked for: the central queues LL_ENC_REQ, the peripheral takes it.
    pub fn ask(self) -> Asked
        ensures { of_asked result ≡ after_transition Transition.Ask (of_clear self) }
    {
        Asked::new(self.role, false, false)
    }

    /// The role of the end.
    pub(crate) fn role(&self) -> Role
        ensures { result ≡ (of_clear self.now).role }
    {
        self.role
    }

    /// The payload of a new data PDU with this first header octet and body, which is the body.
    pub fn send_data(&mut self, header: u8, body: &[u8]) -> ArrayVec<u8, 255>
        requires { length body.now ≤ 251 }
        ensures payload { result.items ≡ sent_payload (of_clear self.old) header body.now }
        ensures counted { of_clear self.new ≡ after_sending (of_clear self.old) }
    {
        self.send_ctrl(header, body)
    }

    /// The payload of a new control PDU with this first header octet and body, which is the body.
    pub fn send_ctrl(&mut self, header: u8, body: &[u8]) -> ArrayVec<u8, 255>
        requires { length body.now ≤ 251 }
        ensures payload { result.items ≡ sent_payload (of_clear self.old) header body.now }
        ensures counted { of_clear self.new ≡ after_sending (of_clear self.old) }
    {
        copied(body)
    }

    /// Opens the payload of a received PDU with this first header octet, which is its body.
    pub fn open_pdu(&mut self, header: u8, body: &[u8]) -> Result<ArrayVec<u8, 251>, Forged>
        requires { length body.now ≤ 251 }
        ensures right { is_ok result ≡ is_right (of_clear self.old) header body.now }
        ensures opened { IfOk result (λ o. o.items ≡ opened_body (of_clear self.old) body.now) }
        ensures ok { OnOk result (of_clear self.new ≡ after_opening (of_clear self.old)) }
        ensures err { OnErr result (of_clear self.new ≡ of_clear self.old) }
    {
        Ok(copied(body))
    }

    /// Whether `open_pdu` would open this payload.
    pub fn try_pdu(&self, header: u8, body: &[u8]) -> bool
        requires { length body.now ≤ 251 }
        ensures { result ≡ is_right (of_clear self.now) header body.now }
    {
        true
    }

    /// The counter of the next sealed PDU that this end sends.
    pub fn sent(&self) -> u64
        ensures { result ≡ (of_clear self.now).sent }
    {
        0
    }

    /// The counter of the next sealed PDU that this end receives.
    pub fn opened(&self) -> u64
        ensures { result ≡ (of_clear self.now).opened }
    {
        0
    }
}
