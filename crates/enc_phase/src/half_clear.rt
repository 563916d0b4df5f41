//! HalfClear: the phase after a pause, before encryption is asked for again.
ghost use Rattle.std.specs.Prelude.{◌≡◌, ◌≤◌, length, is_ok, IfOk, OnOk, OnErr};
ghost use Rattle.enc_phase.specs.Sealing.{after_opening, after_sending, after_transition};
ghost use Rattle.enc_phase.specs.Sealing.{is_right, opened_body, sent_payload};
ghost use Rattle.enc_phase.specs.Sealing.{clear_end, of_asked, of_half_clear};

use crate::session::copied;
use crate::{Asked, PhaseFacts, Transition};
use arrayvec::ArrayVec;
use ble_base::Role;
use ccm_link::Forged;

/// An end that paused encryption and has no session any more. It sends no data.
#[derive(Drop)]
pub struct HalfClear {
    role: Role,
    kept: bool,
}

impl HalfClear {
    /// An end that paused encryption. `kept` says whether it keeps the first PDU of a procedure of
    /// the peripheral.
    pub(crate) fn new(role: Role, kept: bool) -> HalfClear
        ensures { of_half_clear result ≡ clear_end role (PhaseFacts.HalfClear kept) }
    {
        HalfClear { role, kept }
    }

    /// Encryption is asked for again: the central queues LL_ENC_REQ, the peripheral takes it.
    pub fn ask(self) -> Asked
        ensures { of_asked result ≡ after_transition Transition.Ask (of_half_clear self) }
    {
        Asked::new(self.role, true, self.kept)
    }

    /// The role of the end.
    pub(crate) fn role(&self) -> Role
        ensures { result ≡ (of_half_clear self.now).role }
    {
        self.role
    }

    /// The phase without its role.
    pub(crate) fn facts(&self) -> PhaseFacts
        ensures { result ≡ (of_half_clear self.now).phase }
    {
        PhaseFacts::HalfClear { kept: self.kept }
    }

    /// The payload of a new control PDU with this first header octet and body, which is the body.
    pub fn send_ctrl(&mut self, header: u8, body: &[u8]) -> ArrayVec<u8, 255>
        requires { length body.now ≤ 251 }
        ensures payload { result.items ≡ sent_payload (of_half_clear self.old) header body.now }
        ensures counted { of_half_clear self.new ≡ after_sending (of_half_clear self.old) }
    {
        copied(body)
    }

    /// Opens the payload of a received PDU with this first header octet, which is its body.
    pub fn open_pdu(&mut self, header: u8, body: &[u8]) -> Result<ArrayVec<u8, 251>, Forged>
        requires { length body.now ≤ 251 }
        ensures right { is_ok result ≡ is_right (of_half_clear self.old) header body.now }
        ensures opened { IfOk result (λ o. o.items ≡ opened_body (of_half_clear self.old) body.now) }
        ensures ok { OnOk result (of_half_clear self.new ≡ after_opening (of_half_clear self.old)) }
        ensures err { OnErr result (of_half_clear self.new ≡ of_half_clear self.old) }
    {
        Ok(copied(body))
    }

    /// Whether `open_pdu` would open this payload.
    pub fn try_pdu(&self, header: u8, body: &[u8]) -> bool
        requires { length body.now ≤ 251 }
        ensures { result ≡ is_right (of_half_clear self.now) header body.now }
    {
        true
    }

    /// The counter of the next sealed PDU that this end sends.
    pub fn sent(&self) -> u64
        ensures { result ≡ (of_half_clear self.now).sent }
    {
        0
    }

    /// The counter of the next sealed PDU that this end receives.
    pub fn opened(&self) -> u64
        ensures { result ≡ (of_half_clear self.now).opened }
    {
        0
    }
}
